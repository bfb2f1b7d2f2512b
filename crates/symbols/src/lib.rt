// The symbol table (004, section 5): of each left metavariable, from its first occurrence, its name, its argument count, the number of
// abstractions above it and its argument list. It is one flat array, a row after the other, filled from its end: so the last first occurrence
// stands first, and a location is a place.
#![tactic(auto)]

pub mod table; // its rows, and entering one

ghost use Rattle.std.specs.Prelude.{◌≡◌, ◌≤◌, ◌<◌};
ghost use Rattle.documents.specs.Rules.{metas};
ghost use Rattle.documents.specs.Translation.{lookup};
ghost use Rattle.tables.specs.Parts.{front, Begins};
ghost use Rattle.tables.specs.Nodes.{part_at};
ghost use Rattle.symbols.specs.Rows.{rows_in, found_in};
ghost use Rattle.symbols.specs.Table.{rows_of};
ghost use Rattle.symbols.specs.Entries.{Enterable, Enters, behind_node, all_found};

use crate::table::SymbolTable;
use tables::node::{ABSTRACTION, FIRST_METAVARIABLE};
use tables::walk::{Node, Nodes};

// Distinct metavariables on the left.
pub const MOST_METAVARIABLES: usize = 16;

// A row: name, argument count, abstractions above, and room for eight arguments.
// Kept (point 6): `find` and `all_found` here, `left_side` and `right_side` of generator take words, however many; a slice of structs would be narrower.
pub const ROW_WORDS: usize = 11;

pub const COUNT: usize = 1;

pub const ABOVE: usize = 2;

pub const ARGUMENTS: usize = 3;

// The words of sixteen rows.
pub const TABLE_WORDS: usize = MOST_METAVARIABLES * ROW_WORDS;

// A metavariable's location.
pub fn find(rows: &[u32], name: u32, count: u32) -> Option<usize>
    ensures { result ≡ found_in (lookup name count (rows_in rows.now)) }
{
    for (location, row) in rows.chunks_exact(ROW_WORDS).enumerate() {
        if row[0] == name && row[COUNT] == count {
            return Some(location);
        }
    }
    None
}

// The words that were gone over, and the words of the subterm's code.
#[derive(Clone, Copy)]
pub struct Entered {
    pub read: usize,
    pub words: usize,
}

// Words of a variable's code, EQVAR, index, NEXT; and of a symbol's, IS, name, count.
const PLAIN_WORDS: usize = 3;

// Of an abstraction's code: ISABST.
const ABSTRACTION_WORDS: usize = 1;

// Of a first occurrence's code, but for the listed indices: CHECK, count, SET, NEXT.
const FIRST_WORDS: usize = 4;

// Of a later occurrence's code, but for the pairs: EQI, entry, d + 64, count, NEXT.
const LATER_WORDS: usize = 5;

// Enters the metavariables of a left side's subterm, under so many abstractions, if there is room for them.
#[cycle(enter_all_enter_term)]
pub fn enter_all(part: &[u32], under: u32, table: &mut SymbolTable) -> Option<Entered>
    requires { Enterable part.now under }
    ensures { Enters under (front part.now) (rows_of table.old) table.new result }
{
    let mut nodes = Nodes::of(part);
    let mut words: usize = 0;
    while let Some(node) = nodes.next() {
        if node.word < FIRST_METAVARIABLE {
            words += PLAIN_WORDS;
            continue;
        }
        let term = enter_term(node, under, table)?;
        nodes.pass(node.count as usize, term.read);
        words += term.words;
    }
    let read = nodes.passed();
    Some(Entered { read, words })
}

// An abstraction or a metavariable, whose own two words the caller has gone over.
// Kept (point 5): the node changes from call to call, the table is one, and `under` goes up by one at an abstraction: no two of them stay together.
#[cycle(enter_all_enter_term)]
fn enter_term(node: Node, under: u32, table: &mut SymbolTable) -> Option<Entered>
    requires { Enterable (part_at node) under × (131072 ≤ node.word) }
    ensures { Enters under (front (part_at node.entry)) (rows_of table.old) table.new (behind_node result) }
{
    if node.word != ABSTRACTION {
        return enter_metavariable(node, under, table);
    }
    let body = enter_all(node.behind, under + 1, table)?;
    let words = ABSTRACTION_WORDS + body.words;
    Some(Entered {
        read: body.read,
        words,
    })
}

// A metavariable: where it has no row yet, this is its first occurrence.
fn enter_metavariable(node: Node, under: u32, table: &mut SymbolTable) -> Option<Entered>
    requires { Enterable (part_at node) under × (131072 ≤ node.word) × (node.word < 196608) }
    ensures { Enters under (front (part_at node.entry)) (rows_of table.old) table.new (behind_node result) }
{
    let name = node.word - FIRST_METAVARIABLE;
    let read = 2 * node.count as usize;
    if find(table.rows(), name, node.count).is_some() {
        let words = LATER_WORDS + 2 * node.count as usize;
        return Some(Entered { read, words });
    }
    if table.is_full() {
        return None;
    }
    table.enter(name, node.count, under, node.behind);
    let words = FIRST_WORDS + (under - node.count) as usize;
    Some(Entered { read, words })
}

// Whether each metavariable of a subterm has a row.
pub fn all_found(part: &[u32], rows: &[u32]) -> bool
    requires { Begins 1 part.now }
    ensures { result ≡ all_found (rows_in rows.now) (metas (front part.now)) }
{
    for node in Nodes::of(part) {
        if node.is_metavariable()
            && find(rows, node.word - FIRST_METAVARIABLE, node.count).is_none()
        {
            return false;
        }
    }
    true
}
