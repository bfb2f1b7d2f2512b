// What the two walks of a result share, that which measures it and that which writes it: what stands in the working table, and the variables of an entry.
#![tactic(auto)]

pub mod given; // what a result is made of
pub mod link; // what the working table holds of an instruction
pub mod variable; // the variables of an entry

// Where the places of the subject's nodes begin in the working table; before that is a word for each word of the code.
pub const NODES_AT: usize = 4096;

// A node's place is its depth times this, and the abstractions above it.
pub const LEVEL: u32 = 256;
