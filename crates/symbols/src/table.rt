// The symbol table itself: its rows, and entering one.
ghost use Rattle.std.specs.Prelude.{◌≡◌, true, [], ◌∷◌, ◌+◌, ◌*◌, ◌%◌, ◌≤◌, ◌<◌, eqb, length};
ghost use Rattle.std.proofs.lemmas.List.Edits.{sets};
ghost use Rattle.documents.specs.Rules.{are_vars};
ghost use Rattle.documents.specs.Translation.{row, unvar};
ghost use Rattle.tables.specs.Parts.{terms, Begins};
ghost use Rattle.symbols.specs.Rows.{rows_in};

use crate::{ABOVE, ARGUMENTS, COUNT, ROW_WORDS, TABLE_WORDS};

// Room for sixteen rows, filled from the end: those from word `first` on are there.
// Kept (point 6): no heap.
#[derive(Drop)]
pub struct SymbolTable {
    words: [u32; TABLE_WORDS],
    first: usize,
    ghost size: { length words ≡ 176 },
    ghost whole: { first % 11 ≡ 0 },
    ghost within: { first ≤ 176 },
}

impl SymbolTable {
    ghost use Rattle.symbols.specs.Table.{rows_of};

    // Without rows.
    pub fn new() -> Self
        ensures { rows_of result ≡ [] }
    {
        SymbolTable {
            words: [0; TABLE_WORDS],
            first: TABLE_WORDS,
        }
    }

    // The words of its rows.
    pub fn rows(&self) -> &[u32]
        ensures rows { rows_in result.now ≡ rows_of self.now }
        ensures few { length result.now ≤ 176 }
        ensures whole { length result.now ≡ 11 * length (rows_of self.now) }
    {
        &self.words[self.first..]
    }

    pub(crate) fn is_full(&self) -> bool
        ensures { result ≡ eqb (length (rows_of self.now)) 16 }
    {
        self.first == 0
    }

    // A row before the others.
    pub(crate) fn enter(&mut self, name: u32, count: u32, above: u32, arguments: &[u32])
        requires { Begins count arguments.now × (are_vars (terms count arguments.now) ≡ true) × (length (unvar (terms count arguments.now)) ≡ count) × (count ≤ 8) × (length (rows_of self.old) < 16) }
        ensures { rows_of self.new ≡ row name count above (unvar (terms count arguments.now)) ∷ rows_of self.old }
    {
        let first = self.first - ROW_WORDS;
        self.words[first] = name;
        self.words[first + COUNT] = count;
        self.words[first + ABOVE] = above;
        put_variables(arguments, count, &mut self.words, first + ARGUMENTS);
        self.first = first;
    }
}

// Writes the indices of the first terms of a part, so many, which are variables.
fn put_variables(part: &[u32], count: u32, out: &mut [u32], at: usize)
    requires { Begins count part.now × (are_vars (terms count part.now) ≡ true) × (at + count ≤ length out.old) }
    ensures { out.new ≡ sets out.old at (unvar (terms count part.now)) }
{
    for i in 0..count as usize {
        out[at + i] = part[2 * i];
    }
}
