// The fourteen opcodes, in 01's order, and the words of each.
ghost use Rattle.std.specs.Prelude.{◌≡◌, ◌<◌};
ghost use Rattle.documents.specs.Instructions.{fixed_after};

// Kept (point 1): opcodes are words of code that C lends, and named constants by the project's rule; an enum read by TryFrom would bring each run of
// code that has passed an Err that cannot come.
pub const IS: u32 = 0;

pub const ISABST: u32 = 1;

pub const NEXT: u32 = 2;

pub const CHECK: u32 = 3;

pub const SET: u32 = 4;

pub const EQVAR: u32 = 5;

pub const EQIMM: u32 = 6;

pub const EQI: u32 = 7;

pub const CELL: u32 = 8;

pub const LAMBDA: u32 = 9;

pub const ADBMAL: u32 = 10;

pub const PUSHVAR: u32 = 11;

pub const PUSHIMM: u32 = 12;

pub const PUSHI: u32 = 13;

// The number of fixed words after each of them.
const FIXED_WORDS: [u8; 14] = [2, 0, 0, 1, 0, 1, 1, 3, 2, 0, 0, 1, 1, 3];

pub fn fixed_words(op: usize) -> u8
    requires { op < 14 }
    ensures { result ≡ fixed_after op }
{
    FIXED_WORDS[op]
}
