// Whether code passes (document 01, 'When code passes'): the match part here, the build part in build.rt. Each instruction is read and checked in one
// walk; the state goes by value.
#![tactic(auto)]

pub mod build; // blocks and bodies
pub mod nesting; // how deep they are

ghost use Rattle.std.specs.Prelude.{◌≡◌, [], ◌∷◌, ◌<◌, ◌≤◌, length, get_or};
ghost use Rattle.documents.specs.Passing.{matching, passes};
ghost use Rattle.indices.specs.Sets.{gathered};
ghost use Rattle.turns.specs.Held.{entries_of};
ghost use Rattle.checker.specs.Matched.{passes_at, verdict, BuildsAt, list_behind, Listing};

use crate::build::{Ended, build};
use crate::nesting::Nesting;
use documents::Refusal;
use documents::op::{CHECK, EQI, SET};
use indices::gather;
use instructions::limit::{MOST_CURRENT, MOST_WORDS};
use turns::entries::Entries;
use turns::turn;

// The guard where no CHECK stands directly before.
const NO_INDEX: u64 = 0;

// 11, or not.
pub fn check(code: &[u32]) -> Result<(), Refusal>
    ensures { result ≡ verdict (passes code.now) }
{
    if MOST_WORDS < code.len() {
        return Err(Refusal::DoesNotPass);
    }
    obeys(code)
}

// The match part: from one current term of depth 0 to the first build instruction. Not put into `check`, so that code that is too long takes none of
// its stack.
#[inline(never)]
fn obeys(code: &[u32]) -> Result<(), Refusal>
    requires { length code.now ≤ 4096 }
    ensures { result ≡ verdict (passes_at code.now 0 (matching (0 ∷ []) [] [])) }
{
    // Kept (point 6): no heap; a stack of 01's most current terms, of which so many stand.
    let mut current = [0u8; MOST_CURRENT];
    let mut terms: usize = 1;
    let mut entries = Entries::new();
    let mut guard: u64 = NO_INDEX;
    let mut at: usize = 0;
    // Kept (point 3): the next place comes of `turn`, which may refuse and asks for the terms and entries so far, so no iterator over the code knows it.
    while at < code.len() {
        let op = code[at];
        if EQI < op {
            return builds(code, at, terms, entries);
        }
        if terms == 0 {
            return Err(Refusal::DoesNotPass);
        }
        let top = terms - 1;
        let d = current[top];
        let turned = turn(code, at, &entries, d, top)?;
        terms = top + turned.terms;
        current[top..terms].fill(turned.depth);
        if op == SET {
            entries.enter(d, guard);
            guard = NO_INDEX;
        } else {
            guard = guard_of(code, at);
        }
        at = turned.next;
    }
    Err(Refusal::DoesNotPass)
}

// The indices that a CHECK lists, as the guard of a SET directly behind it.
fn guard_of(code: &[u32], at: usize) -> u64
    requires { (at < length code.now) × Listing code.now at }
    ensures { result ≡ gathered 0 (list_behind code.now at) }
{
    if code[at] != CHECK {
        return NO_INDEX;
    }
    let from = at + 2;
    let end = from + code[at + 1] as usize;
    gather(&code[from..end])
}

// The build part.
fn builds(code: &[u32], at: usize, terms: usize, entries: Entries) -> Result<(), Refusal>
    requires { (at < length code.now) × (length code.now ≤ 4096) × (7 < get_or code.now at 0) }
    ensures { BuildsAt code.now at terms (entries_of entries) result }
{
    if terms != 0 {
        return Err(Refusal::DoesNotPass);
    }
    let whole = Nesting {
        lambdas: 0,
        nested: 0,
    };
    let Ended::Done = build(code, at, code.len(), entries, whole)? else {
        return Err(Refusal::DoesNotPass);
    };
    Ok(())
}
