// The table check: the first of 2, 1, 3 that is due, and for a subject then 4; or the node count.
ghost use Rattle.std.specs.Prelude.{◌≡◌, leb};
ghost use Rattle.documents.specs.Limits.{depth_limit};
ghost use Rattle.documents.specs.Tables.{depth};
ghost use Rattle.documents.specs.Numbers.{table_in, subject_in};
ghost use Rattle.tables.specs.Parts.{front, Begins};
ghost use Rattle.tables.specs.Answers.{sized, is_good, in_layout};

use crate::node::{ABSTRACTION, FIRST_SYMBOL, MOST_ARGUMENTS, MOST_DEPTH, PLAN_NODES};
use crate::side::plain;
use documents::Refusal;

// A table within its node limit.
pub fn accept(table: &[u32], limit: u32) -> Result<usize, Refusal>
    ensures { result ≡ sized (table_in limit table.now) }
{
    if 2 * (limit as usize) < table.len() {
        return Err(Refusal::TooManyWords);
    }
    if !good(table) {
        return Err(Refusal::TableNotGood);
    }
    if !is_shallow(table) {
        return Err(Refusal::TooDeep);
    }
    Ok(table.len() / 2)
}

// A subject: it has no metavariables besides.
pub fn accept_subject(table: &[u32]) -> Result<usize, Refusal>
    ensures { result ≡ sized (subject_in table.now) }
{
    let nodes = accept(table, PLAN_NODES)?;
    if !plain(table) {
        return Err(Refusal::MetavariableInSubject);
    }
    Ok(nodes)
}

// Whether a table is good, however deep: one running count of the terms still owed.
pub fn good(table: &[u32]) -> bool
    ensures { result ≡ is_good table.now }
{
    let mut owed: usize = 1;
    for node in table.chunks_exact(2) {
        let (word, count) = (node[0], node[1]);
        if owed == 0 || !in_layout(word, count) {
            return false;
        }
        owed = owed - 1 + count as usize;
    }
    owed == 0 && table.len() % 2 == 0
}

// Whether a node's words are such as 01's table of kinds has them.
pub fn in_layout(word: u32, count: u32) -> bool
    ensures { result ≡ in_layout word count }
{
    if word < FIRST_SYMBOL {
        return count == 0;
    }
    if word < ABSTRACTION {
        return count <= MOST_ARGUMENTS;
    }
    if word != ABSTRACTION {
        return false;
    }
    count == 1
}

// Whether no node of a good table is deeper than 64. For each level above the place of the walk it keeps how many terms are owed there, in an
// array, so that a table however deep takes no more stack.
pub fn is_shallow(table: &[u32]) -> bool
    requires { Begins 1 table.now }
    ensures { result ≡ leb (depth (front table.now)) depth_limit }
{
    // Kept (points 3, 6): a `for` over `Nodes` would keep a second count, of all terms owed, and a loop inside for the levels that end there; keeping only
    // the levels that still owe would want the depth in each word too, as survey's walk does: neither is plainer. And no heap: an array of the most levels.
    let mut above = [0u32; MOST_DEPTH];
    let mut level: usize = 0;
    let mut owed: u32 = 1;
    let mut at: usize = 0;
    loop {
        if owed == 0 {
            if level == 0 {
                return true;
            }
            level -= 1;
            owed = above[level];
            continue;
        }
        let arguments = table[at + 1];
        owed -= 1;
        at += 2;
        if arguments == 0 {
            continue;
        }
        if level == MOST_DEPTH - 1 {
            return false;
        }
        above[level] = owed;
        level += 1;
        owed = arguments;
    }
}
