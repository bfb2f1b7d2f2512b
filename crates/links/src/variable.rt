// The variables of an entry.
ghost use Rattle.std.specs.Prelude.{◌≡◌, ◌+◌, ◌-◌, ◌<◌, ◌^◌};
ghost use Rattle.links.specs.Nodewise.{is_free};

use tables::compare::D_SHIFT;
use tables::node::FIRST_SYMBOL;

// Whether a word is a variable that is free under so many abstractions.
pub fn is_free(word: u32, inside: u32) -> bool
    ensures { result ≡ is_free word inside }
{
    word < FIRST_SYMBOL && inside <= word
}

// An index that d moves; `shift` is d + 64.
pub fn moved(index: u32, shift: u32) -> u32
    requires { index + shift < 2 ^ 32 }
    ensures { result ≡ index + shift - 64 }
{
    (index + shift).saturating_sub(D_SHIFT)
}
