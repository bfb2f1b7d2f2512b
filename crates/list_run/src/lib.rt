// The list run (document 02, request 1): a list of rules applied to a whole plan, each time at the first node in prefix order where one of them
// matches, by the first that matches there. A plan is weighed before a word of it is written; the result table is written once, at the end.
#![tactic(auto)]

ghost use Rattle.std.specs.Prelude.{◌≡◌, List, ◌≤◌};
ghost use Rattle.documents.specs.Instructions.{Program};
ghost use Rattle.rewriting.specs.ListCall.{list_call};
ghost use Rattle.list_run.specs.Answers.{given, Applied, Begun, Accepted, TurningIn, TurnsIn, RewritingIn, ReplacesIn};

use builder::{clear, room};
use dispatch::{Buckets, MASKS};
use documents::Refusal;
use instructions::limit::MOST_ENTRIES;
use levels::{LEVELS, Levels};
use links::NODES_AT;
use rewriter::{PLAN_WORDS, Plan, Redex, copy, replace};
use rule_table::{MOST_RULES, few, lay};
use search::{Rules, search};
use survey::survey;

// The words of a working table: links, places, and a copy of what is rewritten.
pub const LIST_WORDS: usize = 16384;

pub const MOST_REWRITES: u32 = 1000;

// The words of the last plan, the rewrites made, and whether no rule matches any more.
#[derive(Clone, Copy)]
pub struct Ended {
    pub words: u32,
    pub rewrites: u32,
    pub normal: bool,
}

// The plan that the rewrites end with at the front of the result table; or the first refusal of 37; 16; 11; of the subject 2, 1, 3, 4; 13, 14, 15,
// and no word of it changed. The working table is all zeros then, however long it was.
pub fn list_run(
    rules: &[u32],
    subject: &[u32],
    rewrites: u32,
    work: &mut [u32],
    res: &mut [u32],
) -> Result<Ended, Refusal>
    ensures { given result work.new res.new ≡ list_call rules.now subject.now rewrites work.old res.old }
{
    let answer = begin(rules, subject, rewrites, work, res);
    clear(work);
    answer
}

// All but that the working table is left as it is: 37, 16, 11.
// Kept (point 5): as in runner, what C lends goes on as it was lent.
fn begin(
    rules: &[u32],
    subject: &[u32],
    rewrites: u32,
    work: &mut [u32],
    res: &mut [u32],
) -> Result<Ended, Refusal>
    ensures { Applied rules.now subject.now rewrites work.old work.new res.old res.new result }
{
    if MOST_REWRITES < rewrites || !few(rules) {
        return Err(Refusal::ListTooLong);
    }
    if work.len() < LIST_WORDS {
        return Err(Refusal::WorkingTableShort);
    }
    // Kept (point 6): no heap; the most rules that there may be, of which those that there are are handed on as a part.
    let mut starts = [0usize; MOST_RULES];
    let count = lay(rules, &mut starts)?;
    accept(rules, &starts[..count], subject, rewrites, work, res)
}

// The subject's refusals.
fn accept(
    rules: &[u32],
    starts: &[usize],
    subject: &[u32],
    rewrites: u32,
    work: &mut [u32],
    res: &mut [u32],
) -> Result<Ended, Refusal>
    requires { (cs : List Program) × Begun rules.now starts.now rewrites work.old cs }
    ensures { Applied rules.now subject.now rewrites work.old work.new res.old res.new result }
{
    survey(subject, &mut work[NODES_AT..])?;
    plans(rules, starts, subject, rewrites, work, res)
}

// The sequence of plans, in a table of its own, and its last one in the result table. Of 13, 14, 15 the subject can break only the first.
fn plans(
    rules: &[u32],
    starts: &[usize],
    subject: &[u32],
    rewrites: u32,
    work: &mut [u32],
    res: &mut [u32],
) -> Result<Ended, Refusal>
    requires { (cs : List Program) × Accepted rules.now starts.now subject.now rewrites work.old cs }
    ensures { Applied rules.now subject.now rewrites work.old work.new res.old res.new result }
{
    let most = room(res.len());
    if most < subject.len() / 2 {
        return Err(Refusal::ResultTooLarge);
    }
    let mut buckets = Buckets {
        roots: [0; MASKS],
        seconds: [0; MASKS],
    };
    buckets.sort(rules, starts);
    let sorted = Rules {
        table: rules,
        starts,
        buckets: &buckets,
    };
    let mut plan = Plan {
        table: [0; PLAN_WORDS],
        words: subject.len(),
    };
    copy(subject, &mut plan.table);
    let ended = turns(sorted, &mut plan, rewrites, most, work)?;
    copy(plan.part(), res);
    Ok(ended)
}

// One rewrite after another, until no rule matches or the number is used up.
fn turns(
    rules: Rules,
    plan: &mut Plan,
    rewrites: u32,
    most: usize,
    work: &mut [u32],
) -> Result<Ended, Refusal>
    requires { ((cs : List Program) × TurningIn rules plan.old most work.old cs) × (rewrites ≤ 1000) }
    ensures { TurnsIn rules.entry plan.old plan.new rewrites most work.old work.new result }
{
    let mut above = Levels {
        words: [0; LEVELS],
        level: 1,
    };
    above.words[0] = 1;
    // Kept (point 6): no heap; room for the most entries, lent to the match part, which says how many it made.
    let mut entries = [0u32; MOST_ENTRIES];
    let mut node: usize = 0;
    // Kept (point 3): a `for` over the rewrites would have an end behind it that is never reached.
    let mut made: u32 = 0;
    while let Some(redex) = search(rules, plan.part(), node, &mut above, &mut entries) {
        if made == rewrites {
            return Ok(Ended {
                words: plan.words as u32,
                rewrites: made,
                normal: false,
            });
        }
        rewrite(rules, redex, &entries, plan, most, work)?;
        node = redex.node;
        made += 1;
    }
    Ok(Ended {
        words: plan.words as u32,
        rewrites: made,
        normal: true,
    })
}

// The rewrite of a redex by its rule.
fn rewrite(
    rules: Rules,
    redex: Redex,
    entries: &[u32],
    plan: &mut Plan,
    most: usize,
    work: &mut [u32],
) -> Result<(), Refusal>
    requires { RewritingIn rules redex entries.now plan.old most work.old }
    ensures { ReplacesIn rules.entry redex entries.now plan.old plan.new most work.old work.new result }
{
    replace(
        rules.code(redex.rule),
        redex,
        &entries[..redex.entries],
        plan,
        most,
        work,
    )
}
