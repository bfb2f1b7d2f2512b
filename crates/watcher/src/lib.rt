// The watch call (document 01): the machine's counts after the first outermost instructions. Nothing is built.
#![tactic(auto)]

pub mod count; // the finished terms of the build part

ghost use Rattle.std.specs.Prelude.{◌≡◌, true};
ghost use Rattle.documents.specs.Passing.{passes};
ghost use Rattle.documents.specs.Numbers.{answered, subject_in};
ghost use Rattle.documents.specs.Calls.{watches};
ghost use Rattle.tables.specs.Parts.{front};
ghost use Rattle.watcher.specs.Watching.{as_watched};

use crate::count::build_part;
use checker::check;
use documents::Refusal;
use documents::op::EQI;
use instructions::limit::MOST_ENTRIES;
use matcher::{Standing, enter, step};
use tables::accept::accept_subject;

// Current terms, entries, finished terms, and the node number of the current term, the subject's node count if there is none.
#[derive(Clone, Copy)]
pub struct Counts {
    pub current: u32,
    pub entries: u32,
    pub finished: u32,
    pub node: u32,
}

// After the first i instructions, all if there are fewer: 11, then 2, 1, 3, 4, then 12.
pub fn watch(code: &[u32], subject: &[u32], i: u32) -> Result<Counts, Refusal>
    ensures { result ≡ as_watched (watches code.now subject.now i) }
{
    check(code)?;
    accept_subject(subject)?;
    follow(code, subject, i)
}

// The match part, one instruction after the other.
fn follow(code: &[u32], subject: &[u32], i: u32) -> Result<Counts, Refusal>
    requires { (passes code.now ≡ true) × (subject_in subject.now ≡ answered (front subject.now)) }
    ensures { result ≡ as_watched (watches code.now subject.now i) }
{
    // Kept (point 6): no heap; room for the most entries.
    let mut entries = [0u32; MOST_ENTRIES];
    let mut here = Standing::START;
    for done in 0..i {
        if EQI < code[here.at] {
            return Ok(Counts {
                current: 0,
                entries: here.made as u32,
                finished: build_part(code, here.at, i - done),
                node: (here.top / 2) as u32,
            });
        }
        let next = step(code, subject, &entries, here)?;
        let made = enter(&mut entries, here.made, code[here.at], here.top);
        here = Standing { made, ..next };
    }
    Ok(Counts {
        current: here.current as u32,
        entries: here.made as u32,
        finished: 0,
        node: (here.top / 2) as u32,
    })
}
