// The first node in prefix order where a rule of the list matches, and the first rule that does. After a rewrite only the nodes above it and those from it on
// are looked at: the others before it end before it, and are as they were (001: 'known to be in simplest form').
#![tactic(auto)]

ghost use Rattle.std.specs.Prelude.{◌≡◌, List, IfSome, IfNone, get_or};
ghost use Rattle.documents.specs.Instructions.{Program};
ghost use Rattle.rule_table.specs.Places.{code_at};
ghost use Rattle.search.specs.Rules.{HasRule};
ghost use Rattle.search.specs.Searches.{redex_of, TryingIn, TriesIn, SearchingIn, FindsIn, FindsAboveIn};

use dispatch::Buckets;
use levels::{Levels, node_of};
use matcher::{Matched, match_part};
use rewriter::Redex;
use rule_table::code_at;

// Good rules: their table, where each stands in it, and what they ask of a node.
#[derive(Clone, Copy)]
pub struct Rules<'a> {
    pub table: &'a [u32],
    pub starts: &'a [usize],
    pub buckets: &'a Buckets,
}

impl<'a> Rules<'a> {
    pub fn code(self, rule: usize) -> &'a [u32]
        requires { HasRule self rule }
        ensures { result.now ≡ code_at self.entry.table.now (get_or self.entry.starts.now rule 0) }
    {
        code_at(self.table, self.starts[rule])
    }
}

// What the rules do at one node: the first that matches, and what its match part came to.
#[derive(Clone, Copy)]
pub struct Tried {
    pub rule: usize,
    pub matched: Matched,
}

// The nodes above the one that was rewritten last, the root first; then those from there on.
pub fn search(
    rules: Rules,
    plan: &[u32],
    from: usize,
    above: &mut Levels,
    entries: &mut [u32],
) -> Option<Redex>
    requires { (cs : List Program) × SearchingIn rules plan.now from above.old entries.old 0 cs }
    ensures finds { FindsIn rules.entry plan.now from above.old above.new entries.old entries.new 0 result }
    ensures level { IfSome result (λ redex. above.new.level ≡ redex.level) }
    ensures stays { IfNone result (above.new ≡ above.old) }
{
    let found = search_above(rules, plan, from, above, entries);
    if found.is_some() {
        return found;
    }
    search_from(rules, plan, from, above, entries)
}

// The nodes above, the root first. Where none of them matches, no node before the one that was rewritten last does.
fn search_above(
    rules: Rules,
    plan: &[u32],
    from: usize,
    above: &mut Levels,
    entries: &mut [u32],
) -> Option<Redex>
    requires { (cs : List Program) × SearchingIn rules plan.now from above.old entries.old 0 cs }
    ensures finds { FindsAboveIn rules.entry plan.now from above.old above.new entries.old entries.new result }
    ensures level { IfSome result (λ redex. above.new.level ≡ redex.level) }
    ensures stays { IfNone result (above.new ≡ above.old) }
{
    for level in 1..above.level {
        let node = node_of(above.words[level]);
        let set = rules.buckets.candidates(plan, 2 * node);
        if let Some(tried) = attempt(rules, set, &plan[2 * node..], entries) {
            // It is at hand again, and so still to begin for the node above it.
            above.words[level - 1] += 1;
            above.level = level;
            return Some(redex(node, level, tried));
        }
    }
    None
}

// From that node on, to the end of the plan.
fn search_from(
    rules: Rules,
    plan: &[u32],
    from: usize,
    above: &mut Levels,
    entries: &mut [u32],
) -> Option<Redex>
    requires { (cs : List Program) × SearchingIn rules plan.now from above.old entries.old from cs }
    ensures finds { FindsIn rules.entry plan.now from above.old above.new entries.old entries.new from result }
    ensures level { IfSome result (λ redex. above.new.level ≡ redex.level) }
    ensures stays { IfNone result (above.new ≡ above.old) }
{
    for node in from..plan.len() / 2 {
        let set = rules.buckets.candidates(plan, 2 * node);
        if set == 0 {
            continue;
        }
        if let Some(tried) = attempt(rules, set, &plan[2 * node..], entries) {
            above.go(plan, from, node);
            return Some(redex(node, above.level, tried));
        }
    }
    None
}

// A node where a rule matches.
fn redex(node: usize, level: usize, tried: Tried) -> Redex
    ensures { result ≡ redex_of node level tried }
{
    let Tried { rule, matched } = tried;
    Redex {
        node,
        level,
        words: matched.words,
        rule,
        build: matched.build,
        entries: matched.entries,
    }
}

// The first rule of a set that matches the term which a part begins with. `left` is the set without those that were tried.
fn attempt(rules: Rules, set: u32, part: &[u32], entries: &mut [u32]) -> Option<Tried>
    requires { (cs : List Program) × TryingIn rules set part.now entries.old cs }
    ensures { TriesIn rules.entry set part.now entries.old entries.new result }
{
    let mut left = set;
    while left != 0 {
        let rule = u32::trailing_zeros(left) as usize;
        if let Ok(matched) = match_part(rules.code(rule), part, entries) {
            return Some(Tried { rule, matched });
        }
        left &= left - 1;
    }
    None
}
