// What a match instruction makes of the current term (document 01, 'When code passes').
#![tactic(auto)]

pub mod entries; // sixteen entries

ghost use Rattle.std.specs.Prelude.{◌≡◌, ◌&&◌, ◌+◌, ◌<◌, ◌≤◌, leb, length, get_or};
ghost use Rattle.documents.specs.Instructions.{fixed_after};
ghost use Rattle.documents.specs.Passing.{all_below};
ghost use Rattle.turns.specs.Held.{entries_of};
ghost use Rattle.turns.specs.Turns.{turn_if, turn_at, StaysAt, check_at, eqi_at};

use crate::entries::{Entries, Entry};
use documents::Refusal;
use documents::op::{CHECK, EQI, EQVAR, IS, ISABST, NEXT, SET};
use indices::{all_below, firsts};
use instructions::fetch;
use instructions::limit::{
    MOST_CURRENT, MOST_ENTRIES, MOST_LISTED, MOST_NAME, MOST_OPEN, MOST_PAIRS,
};
use tables::compare::D_SHIFT;
use tables::node::MOST_ARGUMENTS;

// Where the next instruction stands, and how many terms of which depth take the top's place.
#[derive(Clone, Copy)]
pub struct Turned {
    pub next: usize,
    pub terms: usize,
    pub depth: u8,
}

// The match instruction at a place, the top at depth d, `below` terms below it.
pub fn turn(
    code: &[u32],
    at: usize,
    entries: &Entries,
    d: u8,
    below: usize,
) -> Result<Turned, Refusal>
    requires { (at < length code.now) × (get_or code.now at 0 ≤ 7) × (below < 256) × (d ≤ 63) }
    ensures { result ≡ turn_at code.now at d below (entries_of entries.now) }
{
    let next = fetch(code, at, code.len())?;
    let op = code[at];
    // Kept (point 7): as in matcher's step, each opcode has a test of its own.
    if op == IS {
        return arguments(code[at + 1], code[at + 2], next, d, below);
    }
    if op == ISABST {
        if MOST_OPEN <= u32::from(d) {
            return Err(Refusal::DoesNotPass);
        }
        return Ok(Turned {
            next,
            terms: 1,
            depth: d + 1,
        });
    }
    if op == NEXT {
        return Ok(Turned {
            next,
            terms: 0,
            depth: d,
        });
    }
    let next = stays(code, at, next, entries, u32::from(d))?;
    Ok(Turned {
        next,
        terms: 1,
        depth: d,
    })
}

// IS
fn arguments(name: u32, count: u32, next: usize, d: u8, below: usize) -> Result<Turned, Refusal>
    requires { below < 256 }
    ensures { result ≡ turn_if (leb name 65535 && (leb count 8 && leb (below + count) 256)) next count d }
{
    let terms = count as usize;
    if MOST_NAME < name || MOST_ARGUMENTS < count || MOST_CURRENT < below + terms {
        return Err(Refusal::DoesNotPass);
    }
    Ok(Turned {
        next,
        terms,
        depth: d,
    })
}

// CHECK to EQI leave the top.
fn stays(code: &[u32], at: usize, next: usize, entries: &Entries, d: u32) -> Result<usize, Refusal>
    requires { (at < length code.now) × (3 ≤ get_or code.now at 0) × (get_or code.now at 0 ≤ 7) × (next ≡ at + 1 + fixed_after (get_or code.now at 0)) × (next ≤ length code.now) × (d ≤ 63) }
    ensures { StaysAt code.now at d (entries_of entries.now) result }
{
    let op = code[at];
    if op == CHECK {
        return check_list(code, at, d);
    }
    if op == EQI {
        return eqi(code, at, entries, d);
    }
    let stands = if op == SET {
        entries.stored.count < MOST_ENTRIES
    } else if op == EQVAR {
        code[at + 1] < d
    } else {
        entries.stored.has_depth(code[at + 1], d)
    };
    if !stands {
        return Err(Refusal::DoesNotPass);
    }
    Ok(next)
}

fn check_list(code: &[u32], at: usize, d: u32) -> Result<usize, Refusal>
    requires { at + 2 ≤ length code.now }
    ensures { result ≡ check_at code.now at d }
{
    let from = at + 2;
    let end = from + code[at + 1] as usize;
    if MOST_LISTED < code[at + 1] || code.len() < end || !each_below(&code[from..end], d) {
        return Err(Refusal::DoesNotPass);
    }
    Ok(end)
}

fn each_below(list: &[u32], d: u32) -> bool
    ensures { result ≡ all_below d list.now }
{
    list.iter().all(|index| *index < d)
}

fn eqi(code: &[u32], at: usize, entries: &Entries, d: u32) -> Result<usize, Refusal>
    requires { (at + 4 ≤ length code.now) × (d ≤ 63) }
    ensures { result ≡ eqi_at code.now at d (entries_of entries.now) }
{
    let found = entries.stored.find(code[at + 1]);
    let Entry { depth: b, guard } = found.ok_or(Refusal::DoesNotPass)?;
    if code[at + 2] != d + D_SHIFT - b || MOST_PAIRS < code[at + 3] {
        return Err(Refusal::DoesNotPass);
    }
    let from = at + 4;
    let end = from + 2 * code[at + 3] as usize;
    if code.len() < end {
        return Err(Refusal::DoesNotPass);
    }
    let set = firsts(&code[from..end], guard, b, d).ok_or(Refusal::DoesNotPass)?;
    if !all_below(set, b) {
        return Err(Refusal::DoesNotPass);
    }
    Ok(end)
}
