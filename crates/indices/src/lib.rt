// Sets of indices below 64, a bit for each.
// Kept (point 5): 01 wants the guards in one flat array by value (docs/PROMISES.md, last table), whose words a type of a set would wrap at each use.
#![tactic(auto)]

ghost use Rattle.std.specs.Prelude.{◌≡◌, true, ◌≤◌};
ghost use Rattle.documents.specs.Instructions.{pairs_in};
ghost use Rattle.documents.specs.Passing.{all_below};
ghost use Rattle.indices.specs.Sets.{inserted, gathered, full, firsts_in};

pub fn insert(set: u64, index: u32) -> u64
    requires { index ≤ 63 }
    ensures { result ≡ inserted set index }
{
    set | 1 << index
}

// With all of a list.
pub fn gather(list: &[u32]) -> u64
    requires { all_below 64 list.now ≡ true }
    ensures { result ≡ gathered 0 list.now }
{
    let mut set = 0;
    for &index in list {
        set = insert(set, index);
    }
    set
}

// Whether every index below b is in a set.
pub fn all_below(set: u64, b: u32) -> bool
    requires { b ≤ 63 }
    ensures { result ≡ full set b }
{
    let all = (1u64 << b) - 1;
    set & all == all
}

// The first indices of pairs, with those of a set, if they are below b and the second ones below d.
pub fn firsts(pairs: &[u32], set: u64, b: u32, d: u32) -> Option<u64>
    requires { b ≤ 63 }
    ensures { result ≡ firsts_in (pairs_in pairs.now) set b d }
{
    let mut firsts = set;
    for pair in pairs.chunks_exact(2) {
        let (first, second) = (pair[0], pair[1]);
        if b <= first || d <= second {
            return None;
        }
        firsts = insert(firsts, first);
    }
    Some(firsts)
}
