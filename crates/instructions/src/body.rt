// The bodies of a PUSHI: each a key, the number of the body's words, the body.
// Kept (points 2, 3): over an iterator of bodies, which proved, `find` makes reed_run take 437,287 instructions for comb-4096; so it takes about 336,000,
// and the second implementation 390,502.
ghost use Rattle.std.specs.Prelude.{◌≡◌, ◌+◌, ◌<◌};
ghost use Rattle.instructions.specs.Bodies.{key_place, place_behind, found_at, Readable};

// The first of so many keys, from a place on, that is this index.
pub fn find(code: &[u32], bodies: usize, count: u32, index: u32) -> Option<usize>
    requires { Readable code.now bodies count }
    ensures { result ≡ found_at (key_place code.now bodies count index) }
{
    let mut at = bodies;
    for _ in 0..count {
        if code[at] == index {
            return Some(at);
        }
        at = at + 2 + code[at + 1] as usize;
    }
    None
}

// The place behind so many bodies.
pub fn behind(code: &[u32], bodies: usize, count: u32) -> usize
    requires { Readable code.now bodies count }
    ensures { result ≡ place_behind code.now bodies count }
{
    let mut at = bodies;
    for _ in 0..count {
        at = at + 2 + code[at + 1] as usize;
    }
    at
}
