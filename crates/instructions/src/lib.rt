// The instruction reader (document 01, 'Rules, valuations, translation'): whole instructions only, and the bodies of a PUSHI one by one.
#![tactic(auto)]

ghost use Rattle.std.specs.Prelude.{◌≡◌, ◌<◌, ◌≤◌, length};
ghost use Rattle.instructions.specs.Places.{fetched};

pub mod body; // the bodies of a PUSHI
pub mod limit; // how many of each

use documents::Refusal;
use documents::op::{PUSHI, fixed_words};

// Where the fixed words of the instruction at a place end, if they stand before `end`.
pub fn fetch(code: &[u32], at: usize, end: usize) -> Result<usize, Refusal>
    requires { (at < end) × (end ≤ length code.now) }
    ensures { result ≡ fetched code.now at end }
{
    let op = code[at];
    if PUSHI < op {
        return Err(Refusal::DoesNotPass);
    }
    let words = fixed_words(op as usize) as usize;
    if end - at - 1 < words {
        return Err(Refusal::DoesNotPass);
    }
    Ok(at + 1 + words)
}
