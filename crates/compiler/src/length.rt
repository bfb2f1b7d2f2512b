// The length of a right side's code. It goes by the nodes alone: where a symbol's arguments or a metavariable's bodies end does not matter.
ghost use Rattle.std.specs.Prelude.{◌≡◌, ◌≤◌, length};
ghost use Rattle.compiled.specs.Length.{right_words};
ghost use Rattle.tables.specs.Parts.{front, Begins};

use tables::node::{ABSTRACTION, FIRST_SYMBOL};
use tables::walk::Nodes;

// Words of a variable's code: PUSHVAR, index.
const VARIABLE_WORDS: usize = 2;

// Of a symbol's code, but for its arguments: CELL, name, count.
const SYMBOL_WORDS: usize = 3;

// Of an abstraction's code, but for its body: LAMBDA, ADBMAL.
const ABSTRACTION_WORDS: usize = 2;

// Of a metavariable's code, but for its bodies: PUSHI, entry, d + 64, count; and of a body, but for its code: key, words.
const METAVARIABLE_WORDS: usize = 4;

const BODY_WORDS: usize = 2;

// The words of the code of the subterm that a part begins with.
pub fn right_words(part: &[u32]) -> usize
    requires { Begins 1 part.now × (length part.now ≤ 512) }
    ensures { result ≡ right_words (front part.now) }
{
    let mut words: usize = 0;
    for node in Nodes::of(part) {
        words += if node.is_metavariable() {
            METAVARIABLE_WORDS + BODY_WORDS * node.count as usize
        } else if node.word == ABSTRACTION {
            ABSTRACTION_WORDS
        } else if node.word < FIRST_SYMBOL {
            VARIABLE_WORDS
        } else {
            SYMBOL_WORDS
        };
    }
    words
}
