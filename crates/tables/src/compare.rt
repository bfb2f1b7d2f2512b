// The comparison of two subterms under a renaming: EQI and EQIMM of the machine.
ghost use Rattle.std.specs.Prelude.{◌≡◌, ◌+◌, ◌<◌, ◌^◌, length};
ghost use Rattle.documents.specs.Machine.{equal, renaming};
ghost use Rattle.documents.specs.Instructions.{pairs_in};
ghost use Rattle.tables.specs.Parts.{front, Begins};
ghost use Rattle.tables.specs.Compared.{agrees, compared, same_variable};

use crate::node::{ABSTRACTION, FIRST_SYMBOL};
use crate::walk::Nodes;

// Code words hold d + 64 for d.
pub const D_SHIFT: u32 = 64;

// EQI: the old subterm, renamed, is the new one. The pairs are a first index and a second one each; `shift` is d + 64.
pub fn same(old: &[u32], new: &[u32], shift: u32, pairs: &[u32]) -> bool
    requires { Begins 1 old.now × Begins 1 new.now }
    ensures { result ≡ agrees pairs.now shift (front old.now) (front new.now) }
{
    compare_under(old, new, shift, pairs, 0).is_some()
}

// EQIMM: the two subterms are one.
pub fn identical(old: &[u32], new: &[u32]) -> bool
    requires { Begins 1 old.now × Begins 1 new.now }
    ensures { result ≡ equal (front old.now) (front new.now) }
{
    same(old, new, D_SHIFT, &old[..0])
}

// The same below so many abstractions: how many words the two have, if they agree. As long as they do, a node stands at the same place of both.
// So the nodes of the old one are gone over, and only an abstraction takes a call.
fn compare_under(old: &[u32], new: &[u32], shift: u32, pairs: &[u32], under: usize) -> Option<usize>
    requires { Begins 1 old.now × Begins 1 new.now × (under + length old.now < 2 ^ 64) }
    ensures { result ≡ compared pairs.now shift under (front old.now) (front new.now) }
{
    let mut nodes = Nodes::of(old);
    while let Some(node) = nodes.next() {
        let behind = nodes.passed();
        let other = new[behind - 2];
        if node.word < FIRST_SYMBOL {
            if !is_same_variable(node.word, other, shift, pairs, under) {
                return None;
            }
        } else if other != node.word {
            return None;
        } else if node.word == ABSTRACTION {
            let words = compare_under(node.behind, &new[behind..], shift, pairs, under + 1)?;
            nodes.pass(1, words);
        } else if new[behind - 1] != node.count {
            return None;
        }
    }
    Some(nodes.passed())
}

// Whether a variable's word, renamed below so many abstractions, is the other word.
fn is_same_variable(word: u32, other: u32, shift: u32, pairs: &[u32], under: usize) -> bool
    requires { word < 65536 }
    ensures { result ≡ same_variable (pairs_in pairs.now) shift under word other }
{
    // an index past the last is no other node's word
    if FIRST_SYMBOL <= other {
        return false;
    }
    let old = word as usize;
    let new = other as usize;
    if old < under {
        return old == new;
    }
    if new < under {
        return false;
    }
    renamed(old - under, shift, pairs) == new - under
}

// A free variable's new index: that of the first pair that has it, or else moved by d.
fn renamed(index: usize, shift: u32, pairs: &[u32]) -> usize
    requires { index < 65536 }
    ensures { result ≡ renaming (pairs_in pairs.now) shift index }
{
    for pair in pairs.chunks_exact(2) {
        if pair[0] as usize == index {
            return pair[1] as usize;
        }
    }
    (index + shift as usize).saturating_sub(D_SHIFT as usize)
}
