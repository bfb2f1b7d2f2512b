// Which rules can match at a node, told from its two words and from those of the node behind it, which is its first argument if it has one: sets of
// rules, a bit for each, one for each bucket of nodes. A rule that is in neither set need not be tried.
#![tactic(auto)]

ghost use Rattle.std.specs.Prelude.{◌≡◌, IfSome, List, ◌+◌, ◌≤◌, ◌<◌, length, get_or, drop, replicate};
ghost use Rattle.documents.specs.Instructions.{Program};
ghost use Rattle.tables.specs.Parts.{Begins, front};
ghost use Rattle.indices.specs.Sets.{inserted};
ghost use Rattle.rule_table.specs.Places.{Places};
ghost use Rattle.dispatch.specs.Buckets.{bucket_of, asked_at, asked_behind, asked_number, Asked};
ghost use Rattle.dispatch.specs.Admitted.{admitted, everywhere, Readable};
ghost use Rattle.dispatch.specs.Sorted.{Sorted, Candidates};

use documents::op::{IS, ISABST};
use indices::insert;
use rule_table::code_at;
use tables::node::{FIRST_METAVARIABLE, FIRST_SYMBOL};

// Symbols, by name and count. Names that stand close together, or a round number apart, have buckets of their own: what is taken of a name is the
// middle of its product with SPREAD. The counts of one name have the buckets behind it.
const SYMBOLS: u32 = 256;

const SPREAD: u32 = 20551;

const LOW_PART: u32 = 4096;

// A bucket for abstractions, and one for variables.
const ABSTRACTIONS: usize = 256;

const VARIABLES: usize = 257;

pub const MASKS: usize = 258;

// The words of an IS.
const IS_WORDS: usize = 3;

// The bucket of a node.
fn bucket(word: u32, count: u32) -> usize
    requires { count ≤ 8 }
    ensures { (result ≡ bucket_of word count) × (result < 258) }
{
    if word < FIRST_SYMBOL {
        return VARIABLES;
    }
    if FIRST_METAVARIABLE <= word {
        return ABSTRACTIONS;
    }
    ((word * SPREAD / LOW_PART + count) % SYMBOLS) as usize
}

// The bucket that a node must be in for the instruction there not to fail, if it asks for one: for a symbol, or an abstraction.
fn asked(code: &[u32], at: usize) -> Option<usize>
    requires { Readable code.now at }
    ensures { Asked result (asked_at code.now at) }
{
    if code[at] == IS {
        Some(bucket(FIRST_SYMBOL + code[at + 1], code[at + 2]))
    } else if code[at] == ISABST {
        Some(ABSTRACTIONS)
    } else {
        None
    }
}

// The bucket that the node behind the root must be in: an IS goes on to the first argument.
fn asked_behind(code: &[u32]) -> Option<usize>
    requires { Readable code.now 0 × (get_or code.now 0 0 ≡ 0 → Readable code.now 3) }
    ensures { Asked result (asked_behind code.now) }
{
    if code[0] == IS {
        asked(code, IS_WORDS)
    } else {
        None
    }
}

// The sets for a root, and those for the node behind it.
// Kept (point 6): no heap; a set of the rules is a word, found by what a node begins with.
#[derive(Drop)]
pub struct Buckets {
    pub roots: [u32; MASKS],
    pub seconds: [u32; MASKS],
}

impl Buckets {
    // The rules by what they ask of a root, and of the node behind it.
    pub fn sort(&mut self, rules: &[u32], starts: &[usize])
        requires { ((cs : List Program) × Places rules.now starts.now cs) × (self.old.roots ≡ replicate 258 0) × (self.old.seconds ≡ replicate 258 0) }
        ensures { (cs : List Program) → Places rules.now starts.now cs → Sorted cs self.new.roots self.new.seconds }
    {
        for (i, start) in starts.iter().enumerate() {
            let code = code_at(rules, *start);
            admit(&mut self.roots, asked(code, 0), i);
            admit(&mut self.seconds, asked_behind(code), i);
        }
    }

    // The rules that can match the term which begins at a place of a plan.
    pub fn candidates(&self, plan: &[u32], at: usize) -> u32
        requires { Begins 1 (drop at plan.now) }
        ensures { (cs : List Program) → Sorted cs self.now.roots self.now.seconds → Candidates cs (front (drop at plan.now)) result }
    {
        let set = self.roots[bucket(plan[at], plan[at + 1])];
        if set == 0 {
            return 0;
        }
        if plan.len() < at + 4 {
            return set;
        }
        set & self.seconds[bucket(plan[at + 2], plan[at + 3])]
    }
}

// A rule into the set of the bucket that it asks for, or into all.
fn admit(masks: &mut [u32; MASKS], asked: Option<usize>, rule: usize)
    requires { IfSome asked (λ b. b < 258) × (rule < 32) × (length masks.old ≡ 258) }
    ensures { masks.new ≡ admitted (asked_number asked) masks.old rule }
{
    match asked {
        Some(bucket) => masks[bucket] = with_rule(masks[bucket], rule),
        None => admit_everywhere(masks, rule),
    }
}

fn admit_everywhere(masks: &mut [u32; MASKS], rule: usize)
    requires { (rule < 32) × (length masks.old ≡ 258) }
    ensures { masks.new ≡ everywhere masks.old rule }
{
    for mask in masks.iter_mut() {
        *mask = with_rule(*mask, rule);
    }
}

// A set of rules is one of indices, of which 32 bits hold all.
fn with_rule(set: u32, rule: usize) -> u32
    requires { rule < 32 }
    ensures { result ≡ inserted set rule }
{
    insert(u64::from(set), rule as u32) as u32
}
