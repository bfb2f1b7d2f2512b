// The calls of the C interface: each hands its slices on to the crate that does the work, and gives the answer back as 01's numbers.
// Kept (point 2): `reedbiscuit_c` exports the same calls to C, and an exported name is a function of its own (docs/PORT.md).
#![tactic(auto)]

ghost use Rattle.reedbiscuit.specs.Answers.{Reads, Compiles, Checks, Runs, ListRuns, Watches};

use answers::{ReedAnswer, ReedListAnswer, ReedReadAnswer, ReedWatchAnswer, of_check};

// Document 01's reader: the words of a file's three tables at the front of the lent ones.
pub fn reed_read(
    file: &[u8],
    left: &mut [u32],
    right: &mut [u32],
    subject: &mut [u32],
) -> ReedReadAnswer
    ensures { Reads file.now left.old right.old subject.old result left.new right.new subject.new }
{
    ReedReadAnswer::from(reader::read(file, left, right, subject))
}

// Document 01's compile: a rule's code at the front of the lent code table.
pub fn reed_compile(left: &[u32], right: &[u32], code: &mut [u32]) -> ReedAnswer
    ensures { Compiles left.now right.now code.old result code.new }
{
    ReedAnswer::from(compiler::compile(left, right, code))
}

// Document 01's check: whether code passes, whoever compiled it.
pub fn reed_check(code: &[u32]) -> u32
    ensures { Checks code.now result }
{
    of_check(checker::check(code))
}

// Document 01's run: code applied at the root of a subject, the result at the front of the lent result table.
pub fn reed_run(code: &[u32], subject: &[u32], working: &mut [u32], res: &mut [u32]) -> ReedAnswer
    ensures { Runs code.now subject.now working.old res.old result working.new res.new }
{
    ReedAnswer::from(runner::run(code, subject, working, res))
}

// Document 02's list run, request 1: a list of rules applied to a whole plan until none matches, or so many times; the last plan at the front of the
// lent result table.
pub fn reed_list_run(
    rules: &[u32],
    subject: &[u32],
    rewrites: u32,
    working: &mut [u32],
    res: &mut [u32],
) -> ReedListAnswer
    ensures { ListRuns rules.now subject.now rewrites working.old res.old result working.new res.new }
{
    ReedListAnswer::from(list_run::list_run(rules, subject, rewrites, working, res))
}

// Document 01's watch: the machine's counts after the first i outermost instructions.
pub fn reed_watch(code: &[u32], subject: &[u32], i: u32) -> ReedWatchAnswer
    ensures { Watches code.now subject.now i result }
{
    ReedWatchAnswer::from(watcher::watch(code, subject, i))
}
