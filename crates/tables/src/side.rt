// What the compiler asks of the metavariables of a side.
ghost use Rattle.std.specs.Prelude.{◌≡◌, true};
ghost use Rattle.documents.specs.Lists.{is_empty, member};
ghost use Rattle.documents.specs.Rules.{metas, simple, are_vars, freevars};
ghost use Rattle.tables.specs.Parts.{front, terms, Begins};
ghost use Rattle.tables.specs.Side.{distinct};

use crate::node::FIRST_SYMBOL;
use crate::walk::Nodes;

// The subterm has no metavariable.
pub fn plain(part: &[u32]) -> bool
    requires { Begins 1 part.now }
    ensures { result ≡ is_empty (metas (front part.now)) }
{
    for node in Nodes::of(part) {
        if node.is_metavariable() {
            return false;
        }
    }
    true
}

// Each metavariable's arguments are distinct variables.
pub fn is_simple(part: &[u32]) -> bool
    requires { Begins 1 part.now }
    ensures { result ≡ simple (front part.now) }
{
    for node in Nodes::of(part) {
        if node.is_metavariable() && !distinct_variables(node.behind, node.count) {
            return false;
        }
    }
    true
}

// Kept (point 5): a part and how many of its first terms: a type of the two would be made of other words at each call, and its fact is `Begins`.
// The first terms of a part, so many, are variables, and no two of them are the same.
fn distinct_variables(part: &[u32], count: u32) -> bool
    requires { Begins count part.now }
    ensures { result ≡ distinct (terms count part.now) }
{
    if !variables(part, count) {
        return false;
    }
    for i in 0..count {
        let at = 2 * i as usize;
        if occurs_among(&part[at + 2..], count - i - 1, part[at]) {
            return false;
        }
    }
    true
}

// The first terms of a part, so many, are variables.
fn variables(part: &[u32], count: u32) -> bool
    requires { Begins count part.now }
    ensures { result ≡ are_vars (terms count part.now) }
{
    for i in 0..count {
        if FIRST_SYMBOL <= part[2 * i as usize] {
            return false;
        }
    }
    true
}

// A variable is among the first terms of a part, so many, which are variables all.
pub fn occurs_among(part: &[u32], count: u32, index: u32) -> bool
    requires { Begins count part.now × (are_vars (terms count part.now) ≡ true) }
    ensures { result ≡ member (freevars (terms count part.now)) index }
{
    for i in 0..count {
        if part[2 * i as usize] == index {
            return true;
        }
    }
    false
}
