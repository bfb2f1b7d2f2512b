// 01's numbers for code, in its order.

pub const MOST_WORDS: usize = 4096;

pub const MOST_NAME: u32 = 65535;

pub const MOST_CURRENT: usize = 256;

// Abstractions above a current term, and open LAMBDAs.
pub const MOST_OPEN: u32 = 63;

pub const MOST_ENTRIES: usize = 16;

// Indices of a CHECK.
pub const MOST_LISTED: u32 = 63;

// Pairs of an EQI, keys of a PUSHI.
pub const MOST_PAIRS: u32 = 8;

// Blocks and bodies together.
pub const MOST_NESTED: u32 = 64;
