// Free variables that are forbidden: CHECK of the machine, and the sides of a rule, which have none at all.
ghost use Rattle.std.specs.Prelude.{◌≡◌, ◌+◌, ◌<◌, ◌^◌, length};
ghost use Rattle.documents.specs.Rules.{closed};
ghost use Rattle.tables.specs.Parts.{front, Begins};
ghost use Rattle.tables.specs.Forbidden.{clear, Small, marked, looked, marked_with};

use crate::node::{ABSTRACTION, FIRST_SYMBOL};
use crate::walk::Nodes;

// Indices that a CHECK can list: its current term has at most 63 abstractions above it.
pub const LISTED: usize = 64;

// A mark for each of these, and one for all indices above them.
pub const MARKS: usize = 65;

// CHECK: no free variable of the subterm is listed.
pub fn check(part: &[u32], indices: &[u32]) -> bool
    requires { Begins 1 part.now × Small indices.now }
    ensures { result ≡ clear indices.now (front part.now) }
{
    if indices.is_empty() {
        return true;
    }
    let marks = marks_of(indices);
    look(part, &marks, 0).is_some()
}

// A side of a rule has no free variable.
pub fn is_closed(part: &[u32]) -> bool
    requires { Begins 1 part.now }
    ensures { result ≡ closed (front part.now) }
{
    let marks = [true; MARKS];
    look(part, &marks, 0).is_some()
}

// The marks of a CHECK's list.
fn marks_of(indices: &[u32]) -> [bool; MARKS]
    requires { Small indices.now }
    ensures { result ≡ marked_with indices.now }
{
    let mut marks = [false; MARKS];
    for &index in indices {
        marks[index as usize] = true;
    }
    marks
}

// Looks through the subterm that a part begins with, under so many abstractions: how many words it has, if no free variable of it is marked.
// Only an abstraction takes a call.
fn look(part: &[u32], marks: &[bool; MARKS], under: usize) -> Option<usize>
    requires { Begins 1 part.now × (under + length part.now < 2 ^ 64) }
    ensures { result ≡ looked marks.now under (front part.now) }
{
    let mut nodes = Nodes::of(part);
    while let Some(node) = nodes.next() {
        if node.word < FIRST_SYMBOL && is_marked(marks, node.word as usize, under) {
            return None;
        }
        if node.word == ABSTRACTION {
            nodes.pass(1, look(node.behind, marks, under + 1)?);
        }
    }
    Some(nodes.passed())
}

// Whether a variable, met under so many abstractions, is free there and marked.
fn is_marked(marks: &[bool; MARKS], index: usize, under: usize) -> bool
    ensures { result ≡ marked marks.now under index }
{
    if index < under {
        return false;
    }
    let free = index - under;
    if free < LISTED {
        return marks[free];
    }
    marks[LISTED]
}
