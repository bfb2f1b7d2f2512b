// The left side: 004's `lhs`.
ghost use Rattle.std.specs.Prelude.{◌≤◌, length, take};
ghost use Rattle.documents.specs.Lists.{pairlists};
ghost use Rattle.documents.specs.Instructions.{pair_words};
ghost use Rattle.documents.specs.Translation.{unvar, bvset};
ghost use Rattle.tables.specs.Parts.{terms};
ghost use Rattle.tables.specs.Nodes.{part_at};
ghost use Rattle.generator.specs.Written.{Fits, Wrote};
ghost use Rattle.generator.specs.Matching.{Asked, Done, behind_node, Metavariable, Variables, plain_code, First, first_code, Later, later_code};

use crate::put::put;
use documents::op::{CHECK, EQI, EQVAR, IS, ISABST, NEXT, SET};
use symbols::{ABOVE, ARGUMENTS, ROW_WORDS, find};
use tables::compare::D_SHIFT;
use tables::node::{ABSTRACTION, FIRST_METAVARIABLE, FIRST_SYMBOL};
use tables::side::occurs_among;
use tables::walk::{Node, Nodes};

// The words that were gone over, the SETs still to come behind it, and the place behind the subterm's code.
#[derive(Clone, Copy)]
pub struct Matched {
    pub read: usize,
    pub sets: usize,
    pub next: usize,
}

// The code of the subterm that a part begins with, under so many abstractions; `sets` is the number of SETs still to come. Only
// an abstraction takes a call of it.
// Kept (point 5): a struct of `code` and `at` would add to each contract that it still holds the same reference; of the others only `rows` is the same
// in every call.
#[cycle(left_side_left_term)]
pub fn left_side(
    part: &[u32],
    under: u32,
    sets: usize,
    rows: &[u32],
    code: &mut [u32],
    at: usize,
) -> Matched
    requires { Asked part.now rows.now code.old under sets at }
    ensures { Done part.now rows.now code.old code.new under sets at result }
{
    let mut nodes = Nodes::of(part);
    let mut coming = sets;
    let mut place = at;
    while let Some(node) = nodes.next() {
        if node.word < FIRST_METAVARIABLE {
            place = left_plain(node.word, node.count, code, place);
            continue;
        }
        let term = left_term(node, under, coming, rows, code, place);
        nodes.pass(node.count as usize, term.read);
        coming = term.sets;
        place = term.next;
    }
    Matched {
        read: nodes.passed(),
        sets: coming,
        next: place,
    }
}

// A variable: EQVAR, NEXT. A symbol: IS.
fn left_plain(word: u32, count: u32, code: &mut [u32], at: usize) -> usize
    requires { Fits code.old at (plain_code word count) }
    ensures { Wrote code.old code.new at result (plain_code word count) }
{
    if word < FIRST_SYMBOL {
        return put(code, at, [EQVAR, word, NEXT]);
    }
    put(code, at, [IS, word - FIRST_SYMBOL, count])
}

// An abstraction, ISABST and its body; or a metavariable. Its own two words the caller has gone over.
#[cycle(left_side_left_term)]
fn left_term(
    node: Node,
    under: u32,
    sets: usize,
    rows: &[u32],
    code: &mut [u32],
    at: usize,
) -> Matched
    requires { Asked (part_at node) rows.now code.old under sets at × (131072 ≤ node.word) }
    ensures { Done (part_at node.entry) rows.now code.old code.new under sets at (behind_node result) }
{
    if node.word != ABSTRACTION {
        return left_metavariable(node, under, sets, rows, code, at);
    }
    let inside = put(code, at, [ISABST]);
    left_side(node.behind, under + 1, sets, rows, code, inside)
}

// A metavariable: the first occurrence of it where its location is below the SETs still to come, else a later one.
fn left_metavariable(
    node: Node,
    under: u32,
    sets: usize,
    rows: &[u32],
    code: &mut [u32],
    at: usize,
) -> Matched
    requires { Asked (part_at node) rows.now code.old under sets at × Metavariable (part_at node) }
    ensures { Done (part_at node.entry) rows.now code.old code.new under sets at (behind_node result) }
{
    let count = node.count;
    let read = 2 * count as usize;
    let Some(location) = find(rows, node.word - FIRST_METAVARIABLE, count) else {
        let next = at;
        return Matched { read, sets, next };
    };
    if location < sets {
        let next = first_occurrence(node.behind, count, under, code, at);
        let sets = sets - 1;
        return Matched { read, sets, next };
    }
    let row = &rows[ROW_WORDS * location..];
    let entry = (location - sets) as u32;
    let next = later_occurrence(row, node.behind, count, under, entry, code, at);
    Matched { read, sets, next }
}

// CHECK, SET, NEXT.
fn first_occurrence(arguments: &[u32], count: u32, under: u32, code: &mut [u32], at: usize) -> usize
    requires { First arguments.now count under × Fits code.old at (first_code arguments.now count under) }
    ensures { Wrote code.old code.new at result (first_code arguments.now count under) }
{
    let list = put(code, at, [CHECK, under - count]);
    let behind = put_others(arguments, count, under, code, list);
    put(code, behind, [SET, NEXT])
}

// The indices below a number that are not among the arguments, rising.
fn put_others(arguments: &[u32], count: u32, under: u32, code: &mut [u32], at: usize) -> usize
    requires { Variables count arguments.now × Fits code.old at (bvset under (terms count arguments.now)) }
    ensures { Wrote code.old code.new at result (bvset under (terms count arguments.now)) }
{
    let mut place = at;
    for index in 0..under {
        if !occurs_among(arguments, count, index) {
            place = put(code, place, [index]);
        }
    }
    place
}

// EQI, NEXT.
fn later_occurrence(
    row: &[u32],
    arguments: &[u32],
    count: u32,
    under: u32,
    entry: u32,
    code: &mut [u32],
    at: usize,
) -> usize
    requires { Later row.now arguments.now count under × Fits code.old at (later_code row.now arguments.now count under entry) }
    ensures { Wrote code.old code.new at result (later_code row.now arguments.now count under entry) }
{
    let pairs = put(code, at, [EQI, entry, under + D_SHIFT - row[ABOVE], count]);
    let behind = put_pairs(&row[ARGUMENTS..], arguments, count, code, pairs);
    put(code, behind, [NEXT])
}

// Old arguments paired with new ones, which are variables.
fn put_pairs(old: &[u32], new: &[u32], count: u32, code: &mut [u32], at: usize) -> usize
    requires { Variables count new.now × (count ≤ length old.now) × Fits code.old at (pair_words (pairlists (take count old.now) (unvar (terms count new.now)))) }
    ensures { Wrote code.old code.new at result (pair_words (pairlists (take count old.now) (unvar (terms count new.now)))) }
{
    let mut place = at;
    for i in 0..count as usize {
        place = put(code, place, [old[i], new[2 * i]]);
    }
    place
}
