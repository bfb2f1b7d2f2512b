// The build part: blocks and bodies, by recursion; the words that are left fall.
ghost use Rattle.std.specs.Prelude.{◌≡◌, Some, [], ◌∷◌, ◌&&◌, not, false, ◌+◌, ◌≤◌, eqb, ltb, length, get_or};
ghost use Rattle.documents.specs.Instructions;
ghost use Rattle.documents.specs.Instructions.{fixed_after};
ghost use Rattle.documents.specs.Passing.{build};
ghost use Rattle.instructions.specs.Places.{place_if};
ghost use Rattle.turns.specs.Held.{entries_of, found_in};
ghost use Rattle.checker.specs.Built.{terms_of, terms_at, ended_if, bodies_obey, Operands, entry_obeys, Ends};

use crate::nesting::Nesting;
use documents::Refusal;
use documents::op::{ADBMAL, CELL, LAMBDA, PUSHIMM, PUSHVAR};
use indices::{all_below, insert};
use instructions::fetch;
use instructions::limit::{MOST_NAME, MOST_PAIRS};
use tables::compare::D_SHIFT;
use tables::node::MOST_ARGUMENTS;
use turns::entries::{Entries, Entry};

// How instructions ended that made one term: at an ADBMAL, with the place behind it, or with their words.
// Kept (point 1): both are ends that a caller may want, and neither is a missing one, so an Option's names would say less.
#[derive(Clone, Copy)]
pub enum Ended {
    Shut(usize),
    Done,
}

// Instructions from a place on: a block to its ADBMAL; a body, or the whole, to its end.
// Kept (point 7): as in matcher's step, an opcode has a test of its own.
// Kept (point 5): not `&code[..end]` for code and end: an inner body's places are places of the whole code, and the clauses of `Ends`, `bodies_obey` and
// `entry_obeys` speak of the whole code and an end in it. Each body has an end of its own, so a struct with the entries would be made anew at each.
#[cycle(bodies_build_push)]
pub fn build(
    code: &[u32],
    from: usize,
    end: usize,
    entries: Entries,
    nesting: Nesting,
) -> Result<Ended, Refusal>
    requires { (from ≤ end) × (end ≤ length code.now) × (length code.now ≤ 4096) }
    ensures { Ends code.now from end (entries_of entries) nesting.lambdas nesting.nested (ltb nesting.lambdas nesting.nested) result }
{
    let mut at = from;
    let mut terms: usize = 0;
    // Kept (point 3): the next place comes of a call, `build` of a block or `push`, that may refuse and takes the entries and how deep it is, so no
    // iterator over the code can know it.
    while at < end {
        let next = fetch(code, at, end)?;
        let op = code[at];
        if op == ADBMAL {
            return one_term(terms, Ended::Shut(next));
        }
        if op == LAMBDA {
            let block = nesting.block().ok_or(Refusal::DoesNotPass)?;
            let Ended::Shut(after) = build(code, next, end, entries, block)? else {
                return Err(Refusal::DoesNotPass);
            };
            at = after;
            terms += 1;
        } else if PUSHVAR < op {
            let found = entries.stored.find(code[at + 1]);
            let entry = found.ok_or(Refusal::DoesNotPass)?;
            at = push(code, at + 1, end, entries, nesting, entry)?;
            terms += 1;
        } else {
            terms = plain(code, at, nesting.lambdas, terms)?;
            at = next;
        }
    }
    one_term(terms, Ended::Done)
}

// Exactly one term.
fn one_term(terms: usize, how: Ended) -> Result<Ended, Refusal>
    ensures { result ≡ ended_if (eqb terms 1) how }
{
    if terms != 1 {
        return Err(Refusal::DoesNotPass);
    }
    Ok(how)
}

// The terms after a CELL or PUSHVAR.
fn plain(code: &[u32], at: usize, l: u32, terms: usize) -> Result<usize, Refusal>
    requires { (at + 1 + fixed_after (get_or code.now at 0) ≤ length code.now) × (terms ≤ 4096) }
    ensures { result ≡ terms_at code.now at l terms }
{
    let op = code[at];
    if op == CELL {
        return cell(code[at + 1], code[at + 2], terms);
    }
    if op != PUSHVAR || l <= code[at + 1] {
        return Err(Refusal::DoesNotPass);
    }
    Ok(terms + 1)
}

fn cell(name: u32, count: u32, terms: usize) -> Result<usize, Refusal>
    requires { terms ≤ 4096 }
    ensures { result ≡ terms_of (build [] false 0 0 (Instructions.CELL name count) (terms ∷ [])) }
{
    let taken = count as usize;
    if MOST_NAME < name || MOST_ARGUMENTS < count || terms < taken {
        return Err(Refusal::DoesNotPass);
    }
    Ok(terms - taken + 1)
}

// A PUSHIMM or PUSHI of an entry, the operands from a place on.
#[cycle(bodies_build_push)]
fn push(
    code: &[u32],
    from: usize,
    end: usize,
    entries: Entries,
    nesting: Nesting,
    entry: Entry,
) -> Result<usize, Refusal>
    requires { (1 ≤ from) × (from ≤ end) × Operands code.now from end × (end ≤ length code.now) × (length code.now ≤ 4096) × (found_in entries.stored (get_or code.now from 0) ≡ Some entry) }
    ensures { result ≡ entry_obeys code.now from end (entries_of entries) nesting.lambdas nesting.nested entry.depth }
{
    if code[from - 1] == PUSHIMM {
        return push_whole(from + 1, nesting, entry.depth);
    }
    let count = code[from + 2];
    if code[from + 1] != nesting.lambdas + D_SHIFT - entry.depth || MOST_PAIRS < count {
        return Err(Refusal::DoesNotPass);
    }
    bodies(code, from + 3, end, entries, nesting, entry, count)
}

// A PUSHIMM: the entry as it is, in no body.
fn push_whole(next: usize, nesting: Nesting, b: u32) -> Result<usize, Refusal>
    ensures { result ≡ place_if (not (ltb nesting.lambdas nesting.nested) && eqb nesting.lambdas b) next }
{
    if nesting.is_in_body() || nesting.lambdas != b {
        return Err(Refusal::DoesNotPass);
    }
    Ok(next)
}

// Kept (point 3): a body's words are looked at before they are gone behind, so no iterator over bodies can give the next one.
// So many bodies behind their keys, these below the entry's depth; with its guard they cover all below it.
#[cycle(bodies_build_push)]
fn bodies(
    code: &[u32],
    from: usize,
    end: usize,
    entries: Entries,
    nesting: Nesting,
    entry: Entry,
    count: u32,
) -> Result<usize, Refusal>
    requires { (from ≤ end) × (end ≤ length code.now) × (length code.now ≤ 4096) × (entry.depth ≤ 63) }
    ensures { result ≡ bodies_obey code.now from end count (entries_of entries) nesting.lambdas nesting.nested entry.depth entry.guard }
{
    let mut at = from;
    let mut keys = entry.guard;
    for _ in 0..count {
        if end - at < 2 {
            return Err(Refusal::DoesNotPass);
        }
        let key = code[at];
        let words = code[at + 1] as usize;
        if entry.depth <= key || end - at - 2 < words {
            return Err(Refusal::DoesNotPass);
        }
        let inside = nesting.body().ok_or(Refusal::DoesNotPass)?;
        let body = at + 2;
        let behind = body + words;
        let Ended::Done = build(code, body, behind, entries, inside)? else {
            return Err(Refusal::DoesNotPass);
        };
        keys = insert(keys, key);
        at = behind;
    }
    if !all_below(keys, entry.depth) {
        return Err(Refusal::DoesNotPass);
    }
    Ok(at)
}
