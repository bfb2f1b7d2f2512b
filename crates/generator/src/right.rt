// The right side: 004's `rhs`.
ghost use Rattle.std.specs.Prelude.{◌+◌, ◌≤◌, length};
ghost use Rattle.tables.specs.Parts.{front, terms};
ghost use Rattle.generator.specs.Written.{Fits};
ghost use Rattle.generator.specs.Matching.{Metavariable};
ghost use Rattle.generator.specs.Building.{right_code, right_codes, right_bodies, Ready, Builds};

use crate::put::put;
use documents::op::{ADBMAL, CELL, LAMBDA, PUSHI, PUSHVAR};
use symbols::{ABOVE, ARGUMENTS, ROW_WORDS, find};
use tables::compare::D_SHIFT;
use tables::node::{ABSTRACTION, FIRST_METAVARIABLE, FIRST_SYMBOL};

// The words of what was gone over, and the place behind its code.
#[derive(Clone, Copy)]
pub struct Built {
    pub read: usize,
    pub next: usize,
}

// The code of the subterm that a part begins with, under so many abstractions.
// Kept (point 5): a struct of `code` and `at` would add to each contract that it still holds the same reference, and a body's key and length stand
// before the body's place; of the others only `rows` is the same in every call.
#[cycle(right_bodies_right_metavariable_right_side_right_terms)]
pub fn right_side(part: &[u32], under: u32, rows: &[u32], code: &mut [u32], at: usize) -> Built
    requires { Ready 1 part.now under rows.now × Fits code.old at (right_code rows.now under (front part.now)) }
    ensures { Builds (front part.now) (right_code rows.now under (front part.now)) code.old code.new at result }
{
    let word = part[0];
    let count = part[1];
    if word < FIRST_SYMBOL {
        return Built {
            read: 2,
            next: put(code, at, [PUSHVAR, word]),
        };
    }
    if word < FIRST_METAVARIABLE {
        let arguments = right_terms(&part[2..], count, under, rows, code, at);
        return Built {
            read: 2 + arguments.read,
            next: put(code, arguments.next, [CELL, word - FIRST_SYMBOL, count]),
        };
    }
    if word == ABSTRACTION {
        let inside = put(code, at, [LAMBDA]);
        let body = right_side(&part[2..], under + 1, rows, code, inside);
        return Built {
            read: 2 + body.read,
            next: put(code, body.next, [ADBMAL]),
        };
    }
    right_metavariable(part, under, rows, code, at)
}

// The codes of the first terms of a part, so many, one after the other.
#[cycle(right_bodies_right_metavariable_right_side_right_terms)]
fn right_terms(
    part: &[u32],
    count: u32,
    under: u32,
    rows: &[u32],
    code: &mut [u32],
    at: usize,
) -> Built
    requires { Ready count part.now under rows.now × Fits code.old at (right_codes rows.now under (terms count part.now)) }
    ensures { Builds (terms count part.now) (right_codes rows.now under (terms count part.now)) code.old code.new at result }
{
    let mut read: usize = 0;
    let mut place = at;
    for _ in 0..count {
        let term = right_side(&part[read..], under, rows, code, place);
        read += term.read;
        place = term.next;
    }
    Built { read, next: place }
}

// A metavariable: PUSHI with its location.
#[cycle(right_bodies_right_metavariable_right_side_right_terms)]
fn right_metavariable(part: &[u32], under: u32, rows: &[u32], code: &mut [u32], at: usize) -> Built
    requires { Ready 1 part.now under rows.now × Metavariable part.now × Fits code.old at (right_code rows.now under (front part.now)) }
    ensures { Builds (front part.now) (right_code rows.now under (front part.now)) code.old code.new at result }
{
    let count = part[1];
    let Some(location) = find(rows, part[0] - FIRST_METAVARIABLE, count) else {
        return Built {
            read: tables::pass::skip(part),
            next: at,
        };
    };
    let row = ROW_WORDS * location;
    let shift = under + D_SHIFT - rows[row + ABOVE];
    let first = put(code, at, [PUSHI, location as u32, shift, count]);
    let bodies = right_bodies(&part[2..], count, under, rows, row + ARGUMENTS, code, first);
    Built {
        read: 2 + bodies.read,
        next: bodies.next,
    }
}

// Each key with the code of the matching term: key, body words, body. A body's length is known once it is written.
#[cycle(right_bodies_right_metavariable_right_side_right_terms)]
fn right_bodies(
    part: &[u32],
    count: u32,
    under: u32,
    rows: &[u32],
    keys: usize,
    code: &mut [u32],
    at: usize,
) -> Built
    requires { Ready count part.now under rows.now × (keys + count ≤ length rows.now) × Fits code.old at (right_bodies rows.now under keys count (terms count part.now)) }
    ensures { Builds (terms count part.now) (right_bodies rows.now under keys count (terms count part.now)) code.old code.new at result }
{
    let mut read: usize = 0;
    let mut place = at;
    for &key in &rows[keys..keys + count as usize] {
        let body = right_side(&part[read..], under, rows, code, place + 2);
        put(code, place, [key, (body.next - (place + 2)) as u32]);
        read += body.read;
        place = body.next;
    }
    Built { read, next: place }
}
