// Writes a result that was measured, from its last node to its first.
#![tactic(auto)]

ghost use Rattle.std.specs.Prelude.{◌≡◌, [], ◌∷◌, ◌+◌, ◌-◌, ◌≤◌, ◌<◌, length, get_or};
ghost use Rattle.documents.specs.Instructions.{op_cell, op_pushvar, op_pushimm, op_pushi};
ghost use Rattle.writer.specs.Written.{Wrote, Writes, Room, Same};
ghost use Rattle.writer.specs.Wanted.{Going, arguments_at, lambdas_in, lambdas_around, is_constant, head_at, moves_nothing, EntryPart, Met, TreeFor, FreeFor};

pub mod place; // where in a result a tree is written

use crate::place::Place;
use documents::op::{CELL, PUSHIMM, PUSHVAR};
use instructions::body::find;
use links::given::Given;
use links::link::Link;
use links::variable::{is_free, moved};
use links::{LEVEL, NODES_AT};
use tables::compare::D_SHIFT;
use tables::node::{ABSTRACTION, FIRST_SYMBOL};

// Where the nodes above begin, in the lent table whose first words hold OFFSET at each open LAMBDA.
// Kept (point 6): no heap; both stacks stand in one lent table, since each table more is an argument more of the whole cycle.
const ABOVE_AT: usize = 64;

// A node above is its place in the code times this, and how many trees are to be written before it.
// Kept (point 4): two numbers in a word, packed at one place and taken apart at one; a type as `links::Link` would be longer than these.
const TREES: u32 = 16;

// The tree whose root is given, before a place of the result. Answers where it begins. `opened` holds OFFSET at each open LAMBDA. The last tree that a
// node takes is written first, the node itself after the first of them; until then it waits in `opened`. So only a body takes a call.
// Kept (points 5, 7): two tables are written and one is read, each lent on by itself, so a struct of them would be lent, taken apart and put together
// at each call of the cycle; and the kinds of instruction are told by one test each, as in matcher's step.
#[cycle(write_write_entry_write_free_write_leaf)]
pub fn write(
    given: &Given,
    work: &[u32],
    res: &mut [u32],
    opened: &mut [u32],
    root: usize,
    end: usize,
    place: Place,
) -> usize
    requires { Going given.now.subject.now work.now res.old opened.old end place.offset place.lambdas × Room (TreeFor given.now work.now opened.old place root) end }
    ensures { Writes (TreeFor given.now work.now opened.old place root) res.old res.new result end × Same place.lambdas place.level opened.old opened.new }
{
    let code = given.code;
    let mut at = root;
    let mut left: u32 = 1;
    let mut to = end;
    let mut lambdas = place.lambdas;
    // Kept (point 6): no heap, so the nodes that wait stand in a lent table, and beside it how many they are.
    let mut kept = place.level;
    // Kept (point 3): the walk goes down and up by links, and its places follow no range.
    loop {
        if left == 0 {
            if kept == place.level {
                return to;
            }
            kept -= 1;
            let node = (opened[ABOVE_AT + kept] / TREES) as usize;
            left = opened[ABOVE_AT + kept] % TREES;
            at = Link(work[node]).before();
            to = put(res, to, head(code, node), arguments(code, node));
            lambdas = outer(code, node, lambdas);
        } else if code[at] < PUSHVAR {
            opened[ABOVE_AT + kept] = at as u32 * TREES + (left - 1);
            kept += 1;
            opened[lambdas] = place.offset;
            lambdas = inner(code, at, lambdas);
            left = arguments(code, at);
            at = Link(work[at]).over();
        } else {
            let here = at;
            at = Link(work[here]).before();
            left -= 1;
            let here_at = Place {
                offset: place.offset,
                lambdas,
                level: kept,
                words: place.words,
            };
            to = write_leaf(given, work, res, opened, here, to, here_at);
        }
    }
}

// How many terms a CELL or ADBMAL takes.
#[tactic(auto, unfolding(crate::specs::Wanted::arguments_at))]
fn arguments(code: &[u32], at: usize) -> u32
    requires { (at < length code.now) × (get_or code.now at 0 ≡ op_cell → at + 2 < length code.now) }
    ensures { result ≡ arguments_at code.now at }
{
    if code[at] == CELL { code[at + 2] } else { 1 }
}

// How many LAMBDAs are open in these.
#[tactic(auto, unfolding(crate::specs::Wanted::lambdas_in))]
fn inner(code: &[u32], at: usize, l: usize) -> usize
    requires { (at < length code.now) × (l < 64) }
    ensures { result ≡ lambdas_in code.now at l }
{
    if code[at] == CELL { l } else { l + 1 }
}

// How many LAMBDAs are open around it, if so many are in what it took.
#[tactic(auto, unfolding(crate::specs::Wanted::lambdas_around))]
fn outer(code: &[u32], at: usize, l: usize) -> usize
    requires { (at < length code.now) × ((get_or code.now at 0 ≡ op_cell → ⊥) → 1 ≤ l) }
    ensures { result ≡ lambdas_around code.now at l }
{
    if code[at] == CELL { l } else { l - 1 }
}

// Whether it is a symbol without arguments.
#[tactic(auto, unfolding(crate::specs::Wanted::is_constant))]
fn is_constant(code: &[u32], at: usize) -> bool
    requires { (at < length code.now) × (get_or code.now at 0 ≡ op_cell → at + 2 < length code.now) }
    ensures { result ≡ is_constant code.now at }
{
    code[at] == CELL && code[at + 2] == 0
}

// The word of its node.
#[tactic(auto, unfolding(crate::specs::Wanted::head_at))]
fn head(code: &[u32], at: usize) -> u32
    requires { (at < length code.now) × (get_or code.now at 0 ≡ op_cell → (at + 1 < length code.now) × (get_or code.now (at + 1) 0 < 65536)) }
    ensures { result ≡ head_at code.now at }
{
    if code[at] == CELL {
        FIRST_SYMBOL + code[at + 1]
    } else {
        ABSTRACTION
    }
}

// A node's two words.
//
// Kept (point 6): a table is written from its end to its front. Cut to its first `end` words for each call it would need no `end`, but each caller would
// have to put the part that it lent and the words behind it together again.
fn put(res: &mut [u32], end: usize, word: u32, count: u32) -> usize
    requires { (2 ≤ end) × (end ≤ length res.old) }
    ensures { Wrote res.old res.new result end (word ∷ count ∷ []) }
{
    res[end - 2] = word;
    res[end - 1] = count;
    end - 2
}

// A PUSHVAR, PUSHIMM or PUSHI.
#[cycle(write_write_entry_write_free_write_leaf)]
fn write_leaf(
    given: &Given,
    work: &[u32],
    res: &mut [u32],
    opened: &mut [u32],
    at: usize,
    end: usize,
    place: Place,
) -> usize
    requires { Going given.now.subject.now work.now res.old opened.old end place.offset place.lambdas × Room (TreeFor given.now work.now opened.old place at) end × (op_pushvar ≤ get_or given.now.code.now at 0) }
    ensures { Writes (TreeFor given.now work.now opened.old place at) res.old res.new result end × Same place.lambdas place.level opened.old opened.new }
{
    let code = given.code;
    let operand = code[at + 1];
    if code[at] == PUSHVAR {
        return put(
            res,
            end,
            bound(operand, opened, place.offset, place.lambdas),
            0,
        );
    }
    let first = given.entry(operand);
    let part = &given.subject[first..work[at + 1] as usize];
    if moves_nothing(code, at, place.offset) {
        return copy(part, res, end);
    }
    write_entry(
        given,
        work,
        res,
        opened,
        at,
        part,
        NODES_AT + first / 2,
        end,
        place,
    )
}

// The index of a bound variable: it has crossed as many abstractions of entries as were crossed since its LAMBDA.
fn bound(operand: u32, opened: &[u32], offset: u32, l: usize) -> u32
    requires { (operand < l) × (l ≤ length opened.now) × (l ≤ 63) × (get_or opened.now (l - 1 - operand) 0 ≤ offset) × (offset ≤ 1048576) }
    ensures { result ≡ operand + (offset - get_or opened.now (l - 1 - operand) 0) }
{
    operand + (offset - opened[l - 1 - operand as usize])
}

// A PUSHIMM, or a PUSHI without bodies under which no index changes.
#[tactic(auto, unfolding(crate::specs::Wanted::moves_nothing))]
fn moves_nothing(code: &[u32], at: usize, offset: u32) -> bool
    requires { (at < length code.now) × ((get_or code.now at 0 ≡ op_pushimm → ⊥) → (at + 3 < length code.now) × (get_or code.now (at + 2) 0 ≤ 127)) × (offset ≤ 1048576) }
    ensures { result ≡ moves_nothing code.now at offset }
{
    code[at] == PUSHIMM || code[at + 3] == 0 && code[at + 2] + offset == D_SHIFT
}

// Words as they are.
// Kept (point 2): rewriter's `copy` writes to the front and this one before a place; one for both would be a crate for two lines.
fn copy(part: &[u32], res: &mut [u32], end: usize) -> usize
    requires { (length part.now ≤ end) × (end ≤ length res.old) }
    ensures { Wrote res.old res.new result end part.now }
{
    let to = end - part.len();
    // Kept (point 3): `copy_from_slice` becomes C's memmove, and the library asks memset and memcpy alone (include/reedbiscuit.h).
    for (i, word) in part.iter().enumerate() {
        res[to + i] = *word;
    }
    to
}

// The walk of an entry, handed on as a part of the subject, from its last node to its first.
#[cycle(write_write_entry_write_free_write_leaf)]
fn write_entry(
    given: &Given,
    work: &[u32],
    res: &mut [u32],
    opened: &mut [u32],
    push: usize,
    part: &[u32],
    places: usize,
    end: usize,
    place: Place,
) -> usize
    requires { Going given.now.subject.now work.now res.old opened.old end place.offset place.lambdas × Room (TreeFor given.now work.now opened.old place push) end × (get_or given.now.code.now push 0 ≡ op_pushi) × EntryPart given.now.code.now push part.now places given.now.subject.now given.now.entries.now work.now }
    ensures { Writes (TreeFor given.now work.now opened.old place push) res.old res.new result end × Same place.lambdas place.level opened.old opened.new }
{
    let root = work[places];
    let mut to = end;
    for node in (0..part.len() / 2).rev() {
        let word = part[2 * node];
        let inside = (work[places + node] - root) % LEVEL;
        to = if is_free(word, inside) {
            write_free(given, work, res, opened, push, word, inside, to, place)
        } else {
            put(res, to, word, part[2 * node + 1])
        };
    }
    to
}

// A variable that is free in an entry, met under so many abstractions of it: its body, run there, or its index moved. Most bodies are one bound
// variable or one symbol, which need no call.
#[cycle(write_write_entry_write_free_write_leaf)]
fn write_free(
    given: &Given,
    work: &[u32],
    res: &mut [u32],
    opened: &mut [u32],
    push: usize,
    word: u32,
    inside: u32,
    end: usize,
    place: Place,
) -> usize
    requires { Going given.now.subject.now work.now res.old opened.old end place.offset place.lambdas × Room (FreeFor given.now work.now opened.old place push word inside) end × Met given.now.code.now work.now push word inside }
    ensures { Writes (FreeFor given.now work.now opened.old place push word inside) res.old res.new result end × Same place.lambdas place.level opened.old opened.new }
{
    let code = given.code;
    let Some(key) = find(code, push + 4, code[push + 3], word - inside) else {
        return put(res, end, moved(word, code[push + 2] + place.offset), 0);
    };
    let root = work[key] as usize;
    let offset = place.offset + inside;
    if code[root] == PUSHVAR {
        let index = bound(code[root + 1], opened, offset, place.lambdas);
        return put(res, end, index, 0);
    }
    if is_constant(code, root) {
        return put(res, end, head(code, root), 0);
    }
    let under = Place {
        offset,
        lambdas: place.lambdas,
        level: place.level,
        words: code[key + 1] as usize,
    };
    write(given, work, res, opened, root, end, under)
}
