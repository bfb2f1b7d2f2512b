// What a result is measured from.
ghost use Rattle.std.specs.Prelude.{◌≤◌};

use links::given::Given;

// What it is made of, and how many nodes it may have.
#[derive(Clone, Copy)]
pub struct Walk<'a> {
    pub given: Given<'a>,
    pub most: usize,
    ghost few: { most ≤ 4096 },
}

// A PUSHI: its place, how many bodies it has, and d + 64. A PUSHIMM, which has none and moves nothing, is walked as one.
#[derive(Clone, Copy)]
pub struct Push {
    pub at: usize,
    pub count: u32,
    pub shift: u32,
    ghost low: { shift ≤ 127 },
}
