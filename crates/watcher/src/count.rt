// The finished terms of the build part, instruction by instruction.
ghost use Rattle.std.specs.Prelude.{◌<◌, length};
ghost use Rattle.watcher.specs.Counting.{Counted, Grows, Finishes};

use documents::op::{CELL, PUSHI, PUSHVAR};
use instructions::body::behind;

// Where the next outermost instruction stands, and how many finished terms there are then.
#[derive(Clone, Copy)]
pub struct Built {
    pub next: usize,
    pub finished: u32,
}

// How many there are after the first of the instructions from a place on, all if there are fewer.
pub fn build_part(code: &[u32], from: usize, i: u32) -> u32
    requires { Counted code.now from 0 }
    ensures { Finishes code.now from i result }
{
    let mut built = Built {
        next: from,
        finished: 0,
    };
    for _ in 0..i {
        if code.len() <= built.next {
            return built.finished;
        }
        built = grow(code, built.next, built.finished);
    }
    built.finished
}

// One instruction. LAMBDA makes no term, ADBMAL takes one and makes one.
// Kept (point 7): as in matcher's step, an opcode has a test of its own.
fn grow(code: &[u32], at: usize, finished: u32) -> Built
    requires { Counted code.now at finished × (at < length code.now) }
    ensures { Grows code.now at finished result }
{
    let op = code[at];
    if op == CELL {
        return Built {
            next: at + 3,
            finished: finished - code[at + 2] + 1,
        };
    }
    if op == PUSHI {
        let next = behind(code, at + 4, code[at + 3]);
        return Built {
            next,
            finished: finished + 1,
        };
    }
    if PUSHVAR <= op {
        return Built {
            next: at + 2,
            finished: finished + 1,
        };
    }
    Built {
        next: at + 1,
        finished,
    }
}
