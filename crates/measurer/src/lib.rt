// How many nodes a result has, how deep it is and how far its indices reach, before a word of it is written. Each instruction that makes a term leaves
// its link, so that the tree can then be walked from its root.
#![tactic(auto)]

ghost use Rattle.std.specs.Prelude.{◌≡◌, ◌+◌, ◌-◌, ◌<◌, ◌≤◌, length, get_or, set};
ghost use Rattle.instructions.specs.Bodies.{Readable};
ghost use Rattle.trees.specs.Trees.{further};
ghost use Rattle.measurer.specs.Linking.{over_link, plain_link, place_next, forgotten};
ghost use Rattle.measurer.specs.Measuring.{AsksSequence, Measures, AsksPush, Pushes, AsksSpread, Spreads, AsksFree, Frees};

use crate::walk::{Push, Walk};
use documents::op::{ADBMAL, LAMBDA, PUSHIMM, PUSHVAR, fixed_words};
use instructions::body::{behind, find};
use links::link::{Link, Note};
use links::variable::{is_free, moved};
use links::{LEVEL, NODES_AT};
use tables::compare::D_SHIFT;
use tables::walk::Nodes;

pub mod walk; // what a result is measured from

// Depths over the limit are not told apart.
const OVER_DEPTH: u32 = 65;

// What instructions make, with the place of its root.
#[derive(Clone, Copy)]
pub struct Measured {
    pub nodes: usize,
    pub reach: u32,
    pub root: usize,
}

// What an entry becomes, or a variable of it.
#[derive(Clone, Copy)]
pub struct Span {
    pub nodes: usize,
    pub depth: u32,
    pub reach: u32,
}

// Instructions that make one term, to their end; nothing as soon as there are too many nodes.
#[cycle(free_measure_push_spread)]
pub fn measure(walk: &Walk, from: usize, end: usize, work: &mut [u32]) -> Option<Measured>
    requires { AsksSequence walk.now.given.code.now from end walk.now.given.subject.now walk.now.given.entries.now work.old }
    ensures { Measures walk.now.given.code.now from end walk.now.given.subject.now walk.now.given.entries.now work.old work.new walk.now.most result }
{
    let code = walk.given.code;
    let mut at = from;
    let mut last: usize = 0;
    let mut sum: usize = 0;
    let mut farthest: u32 = 0;
    // Kept (point 3): no other loop goes over instructions so; an iterator would hold code, place and end for this one, and read each opcode twice.
    // Kept (point 7): as in matcher's step, an opcode has a test of its own.
    while at < end {
        let op = code[at];
        if op == LAMBDA {
            at += 1;
        } else if op < PUSHIMM {
            if walk.most <= sum {
                return None;
            }
            put_link(code, at, work, last);
            sum += 1;
            last = at;
            at = at + 1 + fixed_words(op as usize) as usize;
        } else {
            let span = push(walk, at, work)?;
            if walk.most - sum < span.nodes {
                return None;
            }
            work[at] = Link::new(last, 0, span.depth).0;
            sum += span.nodes;
            farthest = farthest.max(span.reach);
            last = at;
            at = next(code, at);
        }
    }
    Some(Measured {
        nodes: sum,
        reach: farthest,
        root: last,
    })
}

// What reaches so far, under so many abstractions of an entry.
// Kept (point 1): a reach stands in a word of C's working table, in which 0 is none.
fn shifted(reach: u32, inside: u32) -> u32
    requires { (reach < 524288) × (inside < 256) }
    ensures { result ≡ further inside reach }
{
    if reach == 0 { 0 } else { reach + inside }
}

// The link of a CELL, ADBMAL or PUSHVAR.
fn put_link(code: &[u32], at: usize, work: &mut [u32], last: usize)
    requires { (at < length code.now) × ((get_or code.now at 0 ≡ 11 → ⊥) → (get_or code.now at 0 ≡ 10 → ⊥) → at + 2 < length code.now) × (at < 4096) × (last < 4096) × (4096 ≤ length work.old) }
    ensures { work.new ≡ set work.old at (plain_link code.now at work.old last) }
{
    let op = code[at];
    if op == PUSHVAR {
        work[at] = Link::new(last, 0, 1).0;
    } else if op == ADBMAL {
        put_over(at, work, last, 1);
    } else {
        put_over(at, work, last, code[at + 2]);
    }
}

// The link of an instruction over so many trees, the root of the last given.
fn put_over(at: usize, work: &mut [u32], last: usize, count: u32)
    requires { (at < 4096) × (last < 4096) × (4096 ≤ length work.old) }
    ensures { work.new ≡ set work.old at (over_link work.old count last) }
{
    let mut root = last;
    let mut deepest: u32 = 0;
    for _ in 0..count {
        let link = Link(work[root]);
        deepest = deepest.max(link.depth());
        root = link.before();
    }
    work[at] = Link::new(root, last, (deepest + 1).min(OVER_DEPTH)).0;
}

// The place behind a PUSHIMM or PUSHI.
fn next(code: &[u32], at: usize) -> usize
    requires { (at + 1 < length code.now) × ((get_or code.now at 0 ≡ 12 → ⊥) → (at + 3 < length code.now) × Readable code.now (at + 4) (get_or code.now (at + 3) 0)) }
    ensures { result ≡ place_next code.now at }
{
    if code[at] == PUSHIMM {
        at + 2
    } else {
        behind(code, at + 4, code[at + 3])
    }
}

// A PUSHI, or a PUSHIMM, which has no bodies and moves nothing. The entry is handed on as the part of the subject that begins with it.
#[cycle(free_measure_push_spread)]
fn push(walk: &Walk, at: usize, work: &mut [u32]) -> Option<Span>
    requires { AsksPush walk.now.given.code.now at walk.now.given.subject.now walk.now.given.entries.now work.old }
    ensures { Pushes walk.now.given.code.now at walk.now.given.subject.now walk.now.given.entries.now work.old work.new walk.now.most result }
{
    let code = walk.given.code;
    let first = walk.given.entry(code[at + 1]);
    let part = &walk.given.subject[first..];
    let places = NODES_AT + first / 2;
    if code[at] == PUSHIMM {
        let whole = Push {
            at,
            count: 0,
            shift: D_SHIFT,
        };
        let span = spread(walk, whole, part, places, work)?;
        return Some(Span { reach: 0, ..span });
    }
    let push = Push {
        at,
        count: code[at + 3],
        shift: code[at + 2],
    };
    forget(code, at + 4, push.count, work);
    spread(walk, push, part, places, work)
}

// None of so many bodies is measured yet.
// Kept (points 2, 3): as in `instructions::body`.
fn forget(code: &[u32], bodies: usize, count: u32, work: &mut [u32])
    requires { Readable code.now bodies count × (length code.now ≤ length work.old) }
    ensures { work.new ≡ forgotten code.now work.old bodies count }
{
    let mut at = bodies;
    for _ in 0..count {
        work[at] = 0;
        at = at + 2 + code[at + 1] as usize;
    }
}

// The walk of an entry: each node counts one, and a variable with a body as much as that. Leaves the entry's end.
//
// A place is a depth times LEVEL, and abstractions below that: the highest place has the greatest depth, so that one division does for all nodes. What
// is deeper through bodies is kept apart.
// Kept (point 3): the nodes are asked for behind the loop too, where an `enumerate` is gone.
#[cycle(free_measure_push_spread)]
fn spread(walk: &Walk, push: Push, part: &[u32], places: usize, work: &mut [u32]) -> Option<Span>
    requires { AsksSpread walk.now.given.code.now push.at push.count part.now places walk.now.given.subject.now walk.now.given.entries.now work.old }
    ensures { Spreads walk.now.given.code.now push.at push.count push.shift part.now places walk.now.given.subject.now walk.now.given.entries.now work.old work.new walk.now.most result }
{
    let root = work[places];
    let mut nodes: usize = 0;
    let mut more: usize = 0;
    let mut highest: u32 = 0;
    let mut deepest: u32 = 0;
    let mut farthest: u32 = 0;
    for node in Nodes::of(part) {
        let here = work[places + nodes] - root;
        nodes += 1;
        highest = highest.max(here);
        if is_free(node.word, here % LEVEL) {
            let span = free(walk, push, node.word, here % LEVEL, work)?;
            more += span.nodes - 1;
            if walk.most < more {
                return None;
            }
            deepest = deepest.max(here / LEVEL + span.depth);
            farthest = farthest.max(span.reach);
        }
    }
    work[push.at + 1] = (2 * (places - NODES_AT + nodes)) as u32;
    Some(Span {
        nodes: nodes + more,
        depth: deepest.max(highest / LEVEL + 1).min(OVER_DEPTH),
        reach: farthest,
    })
}

// A variable that is free in an entry, under so many abstractions of it. A body is measured where it is first met.
#[cycle(free_measure_push_spread)]
fn free(walk: &Walk, push: Push, word: u32, inside: u32, work: &mut [u32]) -> Option<Span>
    requires { AsksFree walk.now.given.code.now push.at push.count word inside walk.now.given.subject.now walk.now.given.entries.now work.old }
    ensures { Frees walk.now.given.code.now push.at push.count push.shift word inside walk.now.given.subject.now walk.now.given.entries.now work.old work.new walk.now.most result }
{
    let code = walk.given.code;
    let Some(key) = find(code, push.at + 4, push.count, word - inside) else {
        return Some(Span {
            nodes: 1,
            depth: 1,
            reach: moved(word, push.shift) + 1,
        });
    };
    if work[key] == 0 {
        let from = key + 2;
        let end = from + code[key + 1] as usize;
        let Measured { nodes, reach, root } = measure(walk, from, end, work)?;
        work[key] = root as u32;
        work[key + 1] = Note::new(nodes, reach).0;
        return Some(Span {
            nodes,
            depth: Link(work[root]).depth(),
            reach: shifted(reach, inside),
        });
    }
    let note = Note(work[key + 1]);
    let root = work[key] as usize;
    Some(Span {
        nodes: note.nodes(),
        depth: Link(work[root]).depth(),
        reach: shifted(note.reach(), inside),
    })
}
