// The words of a node, in the order of 01's table of kinds.

// Kept (point 1): a first word has kind and name in one, 01's layout of a lent table; the kinds are ranges of it, and tests of one bound.
// First words from here on are no variables any more.
pub const FIRST_SYMBOL: u32 = 65536;

// First words from here on are no symbols any more.
pub const FIRST_METAVARIABLE: u32 = 131072;

// The one first word of an abstraction.
pub const ABSTRACTION: u32 = 196608;

// Arguments of a symbol or metavariable.
pub const MOST_ARGUMENTS: u32 = 8;

// Nodes of a side of a rule.
pub const SIDE_NODES: u32 = 256;

// Nodes of a subject.
pub const PLAN_NODES: u32 = 4096;

// Depth of a table, its root at depth 1.
pub const MOST_DEPTH: usize = 64;
