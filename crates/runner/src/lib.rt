// The run call (document 01): a result is measured before a word of it is written, so that a refusal leaves the result table as it was. The working
// table holds a word for each word of the code, then one for each node of the subject; afterwards it holds nothing.
#![tactic(auto)]

ghost use Rattle.std.specs.Prelude.{◌≡◌};
ghost use Rattle.documents.specs.Calls.{run_call};
ghost use Rattle.builder.specs.Weighing.{Begun, Building};
ghost use Rattle.runner.specs.Answers.{given, Applied};

use builder::{Weighed, clear, put_before, room, weigh};
use checker::check;
use documents::Refusal;
use instructions::limit::MOST_ENTRIES;
use links::NODES_AT;
use matcher::match_part;
use survey::survey;

// The words of a working table: those of code and of a subject's nodes, at most.
pub const WORKING_WORDS: usize = 8192;

// The result's table at the front of the result table, and its words; or the first refusal of 16; 11; of the subject 2, 1, 3, 4; 12, 13, 14, 15, and no word of it
// changed. The working table is all zeros then, however long it was.
pub fn run(code: &[u32], subject: &[u32], work: &mut [u32], res: &mut [u32]) -> Result<u32, Refusal>
    ensures { given result work.new res.new ≡ run_call code.now subject.now work.old res.old }
{
    let answer = apply(code, subject, work, res);
    clear(work);
    answer
}

// All but that the working table is left as it is: 16, 11, and the subject's refusals.
// Kept (point 5): what C lends goes on as it was lent, since two tables are read and two are written, each by another call.
fn apply(code: &[u32], subject: &[u32], work: &mut [u32], res: &mut [u32]) -> Result<u32, Refusal>
    ensures { Applied code.now subject.now work.old work.new res.old res.new result }
{
    if work.len() < WORKING_WORDS {
        return Err(Refusal::WorkingTableShort);
    }
    check(code)?;
    survey(subject, &mut work[NODES_AT..])?;
    rewrite(code, subject, work, res)
}

// The match part, and 12.
fn rewrite(code: &[u32], subject: &[u32], work: &mut [u32], res: &mut [u32]) -> Result<u32, Refusal>
    requires { Begun code.now subject.now work.old }
    ensures { Applied code.now subject.now work.old work.new res.old res.new result }
{
    // Kept (point 6): no heap; room for the most entries, of which those that the match part made are handed on as a part.
    let mut entries = [0u32; MOST_ENTRIES];
    let matched = match_part(code, subject, &mut entries)?;
    build(
        code,
        matched.build,
        subject,
        &entries[..matched.entries],
        work,
        res,
    )
}

// The build part from its place on: 13, 14, 15, each over the whole result.
fn build(
    code: &[u32],
    at: usize,
    subject: &[u32],
    entries: &[u32],
    work: &mut [u32],
    res: &mut [u32],
) -> Result<u32, Refusal>
    requires { Building code.now at subject.now entries.now work.old }
    ensures { Applied code.now subject.now work.old work.new res.old res.new result }
{
    let most = room(res.len());
    let Weighed { nodes, root } = weigh(code, at, subject, entries, work, most, 1)?;
    put_before(code, subject, entries, work, res, root, 2 * nodes);
    Ok((2 * nodes) as u32)
}
