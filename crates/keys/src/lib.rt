// Whether the metavariables of one side stand on the other, too, where these are more than the symbol table has rows for (document 01, refusals 8
// and 9). A side may have as many as it has nodes, so one is not looked for among all of them: each is a key, and the keys of both sides are parted
// by one bit after the other until few are left. So the work is a few passes over the keys, twenty at most.
#![tactic(auto)]

ghost use Rattle.std.specs.Prelude.{◌≡◌, ◌≤◌, ◌<◌, length};
ghost use Rattle.documents.specs.Lists.{every, member};
ghost use Rattle.documents.specs.Rules.{metas, contains};
ghost use Rattle.tables.specs.Parts.{front, Begins};
ghost use Rattle.keys.specs.Keys.{Keyed, Parted};

use tables::walk::Nodes;

// As many as a side has nodes.
const MOST_KEYS: usize = 256;

// A key is a metavariable's word, below 196,608, and 65,536 times its argument count, at most 8.
const A_COUNT: u32 = 65536;

const KEY_BITS: u32 = 20;

// So many keys are looked for one by one.
const FEW: usize = 16;

// Each metavariable of the right side stands on the left.
pub fn all_known(right: &[u32], left: &[u32]) -> bool
    requires { Begins 1 right.now × Begins 1 left.now × (length right.now ≤ 512) × (length left.now ≤ 512) }
    ensures { result ≡ contains (metas (front right.now)) (metas (front left.now)) }
{
    // Kept (point 6): no heap; as many keys as a side has nodes, of which those that were put are handed on as a part.
    let mut right_keys = [0u32; MOST_KEYS];
    let mut left_keys = [0u32; MOST_KEYS];
    let asked = put_keys(right, &mut right_keys);
    let known = put_keys(left, &mut left_keys);
    all_among(&mut right_keys[..asked], &mut left_keys[..known], 0)
}

// The keys of a side's metavariables, at the front of the table.
// Kept (point 3): the count goes up at some nodes only, and is the answer.
fn put_keys(part: &[u32], keys: &mut [u32]) -> usize
    requires { Begins 1 part.now × (length part.now ≤ 512) × (length keys.old ≡ 256) }
    ensures { Keyed (front part.now) keys.new result }
{
    let mut next: usize = 0;
    for node in Nodes::of(part) {
        if node.is_metavariable() {
            keys[next] = node.word + A_COUNT * node.count;
            next += 1;
        }
    }
    next
}

// Each key of the right is one of the left. Both are parted by the bit at a place, unless few are asked for, or there is no bit left: then all of
// them are the same.
fn all_among(right: &mut [u32], left: &mut [u32], place: u32) -> bool
    ensures { result ≡ every (member left.old) right.old }
{
    if right.len() <= FEW || KEY_BITS <= place {
        return each_among(right, left);
    }
    let asked = part(right, place);
    let known = part(left, place);
    all_among(&mut right[..asked], &mut left[..known], place + 1)
        && all_among(&mut right[asked..], &mut left[known..], place + 1)
}

// Brings those keys to the front whose bit at a place is 0, and says how many there are.
// Kept (point 3): `low` and `high` approach each other and only one of them moves in a turn, which no `for` says; the library parts no
// slice, and to sort both sides of many keys by `sort_unstable` costs them a factor of their logarithm where this costs the bits of a key.
fn part(keys: &mut [u32], place: u32) -> usize
    requires { place < 20 }
    ensures { Parted place keys.old keys.new result }
{
    let mut low: usize = 0;
    let mut high = keys.len();
    while low < high {
        if (keys[low] >> place) % 2 == 0 {
            low += 1;
            continue;
        }
        high -= 1;
        keys.swap(low, high);
    }
    low
}

// The same, one key of the right after the other.
fn each_among(right: &[u32], left: &[u32]) -> bool
    ensures { result ≡ every (member left.now) right.now }
{
    right.iter().all(|key| left.contains(key))
}
