// The table of rules (document 02, request 1): each a word count and its code; one cut short by the end is bad.
#![tactic(auto)]

ghost use Rattle.std.specs.Prelude.{◌≡◌, ◌+◌, ◌≤◌, leb, length, get_or};
ghost use Rattle.rewriting.specs.RuleTable.{listed};
ghost use Rattle.rewriting.specs.ListCall.{rule_limit};
ghost use Rattle.rule_table.specs.Places.{code_at, LaidAs};

use checker::check;
use documents::Refusal;

mod each; // the rules of a table one by one

use each::EachRule;

pub const MOST_RULES: usize = 32;

// Whether there are at most 32 rules, a cut one counted.
pub fn few(rules: &[u32]) -> bool
    ensures { result ≡ leb (length (listed rules.now)) rule_limit }
{
    let mut count: usize = 0;
    for _ in EachRule::of(rules) {
        if count == MOST_RULES {
            return false;
        }
        count += 1;
    }
    true
}

// Where each rule's word count stands, if the code of each passes: how many there are.
// Kept (point 6): no heap; the places go into what was lent for the most that there may be.
pub fn lay(rules: &[u32], starts: &mut [usize; MOST_RULES]) -> Result<usize, Refusal>
    requires { (length (listed rules.now) ≤ rule_limit) × (length starts.old ≡ rule_limit) }
    ensures { LaidAs rules.now starts.new result }
{
    let mut count: usize = 0;
    for rule in EachRule::of(rules) {
        let start = rule?;
        check(code_at(rules, start))?;
        starts[count] = start;
        count += 1;
    }
    Ok(count)
}

// The code of the rule whose word count stands at a place.
pub fn code_at(rules: &[u32], start: usize) -> &[u32]
    requires { start + 1 + get_or rules.now start 0 ≤ length rules.now }
    ensures { result.now ≡ code_at rules.now start }
{
    let first = start + 1;
    let end = first + rules[start] as usize;
    &rules[first..end]
}
