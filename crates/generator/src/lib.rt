// Generating code (004, section 6): the words of a side at a place of the lent code table.
#![tactic(auto)]

pub mod put; // words in a row
pub mod left; // 6.1 The left side
pub mod right; // 6.2 The right side
