// The match part of a run (document 01; 004, section 4.2), for code that passes and an accepted subject. The subject is handed on as a part of a
// table: it stands at the front, and where it ends need not be known. In prefix order the current terms are consecutive up to its end: the top starts
// at a word place of the part, and there are so many of them. An entry is the word place of its subterm.
#![tactic(auto)]

ghost use Rattle.std.specs.Prelude.{◌≡◌, true, ◌≤◌, ◌<◌, ◌^◌, IfOk, length, get_or};
ghost use Rattle.documents.specs.Passing.{passes};
ghost use Rattle.matcher.specs.Midway.{Midway, Steps, Tests, entries_after, made_after};
ghost use Rattle.matcher.specs.Ready.{Begins, Comes};

use documents::Refusal;
use documents::op::{CHECK, EQI, EQIMM, EQVAR, IS, ISABST, NEXT, SET};
use tables::compare::{identical, same};
use tables::forbid::check;
use tables::node::{ABSTRACTION, FIRST_SYMBOL};
use tables::pass::skip;

// Where the match part stands: the next instruction, the word place at which the top starts, how many terms are current, how many entries are made.
#[derive(Clone, Copy)]
pub struct Standing {
    pub at: usize,
    pub top: usize,
    pub current: usize,
    pub made: usize,
}

impl Standing {
    // Before the first instruction the subject is the one current term.
    pub const START: Standing = Standing {
        at: 0,
        top: 0,
        current: 1,
        made: 0,
    };
}

// Where the build part begins, how many entries there are, and how many words the subject has.
#[derive(Clone, Copy)]
pub struct Matched {
    pub build: usize,
    pub entries: usize,
    pub words: usize,
}

// From the subject as the one current term to the first build instruction, where none is current: the top has come to the subject's end. The entries
// are left in the lent table, the newest last. 12 if the match fails.
pub fn match_part(code: &[u32], part: &[u32], entries: &mut [u32]) -> Result<Matched, Refusal>
    requires { (passes code.now ≡ true) × Begins part.now × (length entries.old ≡ 16) }
    ensures { Comes code.now part.now entries.new result }
{
    let mut here = Standing::START;
    // Kept (point 3): the next instruction stands where the step says, and not one further.
    while code[here.at] <= EQI {
        let next = step(code, part, entries, here)?;
        let made = enter(entries, here.made, code[here.at], here.top);
        here = Standing { made, ..next };
    }
    Ok(Matched {
        build: here.at,
        entries: here.made,
        words: here.top,
    })
}

// A SET enters the top, behind the entries that there are; gives their number.
pub fn enter(entries: &mut [u32], made: usize, op: u32, top: usize) -> usize
    requires { (op ≡ 4 → made < length entries.old) × (top < 2 ^ 32) }
    ensures { (entries.new ≡ entries_after op entries.old made top) × (result ≡ made_after op made) }
{
    if op != SET {
        return made;
    }
    entries[made] = top as u32;
    made + 1
}

// Kept (points 5, 6): code and subject are lent for all steps, and the entries to `enter` alone to be written, so a struct of the three would be made
// anew at each step; no heap, so the standing says how many entries there are.
// One match instruction, but for what a SET enters: so many entries as before.
// Put into its callers: a standing handed on in memory would be loaded by pairs of words where it was stored word by word, and the processor waits for that.
#[inline(always)]
pub fn step(
    code: &[u32],
    part: &[u32],
    entries: &[u32],
    here: Standing,
) -> Result<Standing, Refusal>
    requires { Midway code.now part.now entries.now here.at here.top here.current here.made × (get_or code.now here.at 0 ≤ 7) }
    ensures steps { Steps code.now part.now entries.now here result }
    ensures keeps { IfOk result (λ next. next.made ≡ here.made) }
{
    let Standing { at, top, .. } = here;
    let op = code[at];
    // Kept (point 7): an opcode says which step it is, and each step moves the place in its own way; closures would be as many, and need the same test.
    if op == IS {
        if part[top] != FIRST_SYMBOL + code[at + 1] || part[top + 1] != code[at + 2] {
            return Err(Refusal::MatchFails);
        }
        return Ok(Standing {
            at: at + 3,
            top: top + 2,
            current: here.current - 1 + code[at + 2] as usize,
            ..here
        });
    }
    if op == ISABST {
        if part[top] != ABSTRACTION {
            return Err(Refusal::MatchFails);
        }
        return Ok(Standing {
            at: at + 1,
            top: top + 2,
            ..here
        });
    }
    if op == NEXT {
        return Ok(Standing {
            at: at + 1,
            top: top + skip(&part[top..]),
            current: here.current - 1,
            ..here
        });
    }
    if op == SET {
        return Ok(Standing { at: at + 1, ..here });
    }
    let next = test(code, part, entries, here)?;
    Ok(Standing { at: next, ..here })
}

// CHECK, EQVAR, EQIMM and EQI leave the current terms as they are: the place behind the instruction.
fn test(code: &[u32], part: &[u32], entries: &[u32], here: Standing) -> Result<usize, Refusal>
    requires { Midway code.now part.now entries.now here.at here.top here.current here.made × (3 ≤ get_or code.now here.at 0) × (get_or code.now here.at 0 ≤ 7) × (get_or code.now here.at 0 ≡ 4 → ⊥) }
    ensures { Tests code.now part.now entries.now here result }
{
    let Standing { at, top, .. } = here;
    let op = code[at];
    if op == CHECK {
        let end = at + 2 + code[at + 1] as usize;
        if !check(&part[top..], &code[at + 2..end]) {
            return Err(Refusal::MatchFails);
        }
        return Ok(end);
    }
    if op == EQVAR {
        if part[top] != code[at + 1] {
            return Err(Refusal::MatchFails);
        }
        return Ok(at + 2);
    }
    compare(code, part, entries, here)
}

// EQIMM and EQI: the top against an entry.
fn compare(code: &[u32], part: &[u32], entries: &[u32], here: Standing) -> Result<usize, Refusal>
    requires { Midway code.now part.now entries.now here.at here.top here.current here.made × (6 ≤ get_or code.now here.at 0) × (get_or code.now here.at 0 ≤ 7) }
    ensures { Tests code.now part.now entries.now here result }
{
    let Standing { at, top, made, .. } = here;
    let old = entries[made - 1 - code[at + 1] as usize] as usize;
    if code[at] == EQIMM {
        if !identical(&part[old..], &part[top..]) {
            return Err(Refusal::MatchFails);
        }
        return Ok(at + 2);
    }
    let end = at + 4 + 2 * code[at + 3] as usize;
    if !same(&part[old..], &part[top..], code[at + 2], &code[at + 4..end]) {
        return Err(Refusal::MatchFails);
    }
    Ok(end)
}
