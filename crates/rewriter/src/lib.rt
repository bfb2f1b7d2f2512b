// One rewrite within a plan: the redex, and what stands behind it, are copied aside, and what the rule makes of the redex is written in its place.
#![tactic(auto)]

ghost use Rattle.std.specs.Prelude.{◌≡◌, ◌++◌, ◌+◌, ◌-◌, ◌*◌, ◌≤◌, IfErr, length, take, drop};
ghost use Rattle.documents.specs.Terms.{Term};
ghost use Rattle.documents.specs.Tables.{table_of, nodes};
ghost use Rattle.writer.specs.Written.{Wrote};
ghost use Rattle.builder.specs.Weighing.{Built};
ghost use Rattle.rewriter.specs.Replaces.{Replacing, WeighsRedex, Exchanging, Exchanges, SettingAside, SetAside, Replaces};

use builder::{Weighed, put_before, weigh};
use documents::Refusal;
use links::NODES_AT;
use survey::note;

// The most words of a plan.
pub const PLAN_WORDS: usize = 8192;

// Where the copy begins in the working table: behind links and places.
const ASIDE: usize = 8192;

// Where a rule matches: a node, its level, the words of its term; the rule by number, where its build part begins, how many entries its match part
// made.
#[derive(Clone, Copy)]
pub struct Redex {
    pub node: usize,
    pub level: usize,
    pub words: usize,
    pub rule: usize,
    pub build: usize,
    pub entries: usize,
}

// A plan: so many words at the front of a table of its own.
// Kept (point 6): no heap.
#[derive(Drop)]
pub struct Plan {
    pub table: [u32; PLAN_WORDS],
    pub words: usize,
    ghost fits: { words ≤ 8192 },
}

impl Plan {
    pub fn part(&self) -> &[u32]
        ensures { result.now ≡ take self.now.words self.now.table }
    {
        &self.table[..self.words]
    }
}

// The plan after a rewrite of a redex by a rule's code; or 13, 14, 15 of the whole next plan. `most` nodes are allowed.
pub fn replace(
    code: &[u32],
    redex: Redex,
    entries: &[u32],
    plan: &mut Plan,
    most: usize,
    work: &mut [u32],
) -> Result<(), Refusal>
    requires { Replacing code.now redex entries.now plan.old.table plan.old.words most work.old }
    ensures replaces { Replaces code.now redex entries.now plan.old.table plan.new.table plan.old.words plan.new.words most work.old work.new result }
    ensures stays { IfErr result (λ _. plan.new ≡ plan.old) }
{
    let weighed = weigh_redex(code, redex, entries, plan, most, work)?;
    exchange(code, redex, entries, plan, work, weighed);
    plan.words = plan.words - redex.words + 2 * weighed.nodes;
    Ok(())
}

// What the rule makes, while the plan is as it was: 13, 14, 15, each over the whole next plan. All of the plan that is not the redex keeps them, and
// takes the nodes that are not room.
fn weigh_redex(
    code: &[u32],
    redex: Redex,
    entries: &[u32],
    plan: &Plan,
    most: usize,
    work: &mut [u32],
) -> Result<Weighed, Refusal>
    requires { Replacing code.now redex entries.now plan.now.table plan.now.words most work.old }
    ensures { WeighsRedex code.now redex entries.now plan.now.table plan.now.words most work.old work.new result }
{
    let first = 2 * redex.node;
    let end = first + redex.words;
    note(&plan.table[first..end], &mut work[NODES_AT..ASIDE]);
    let room = most - (plan.words - redex.words) / 2;
    weigh(
        code,
        redex.build,
        &plan.table[first..end],
        entries,
        &mut work[..ASIDE],
        room,
        redex.level,
    )
}

// What was weighed, in the redex's place.
fn exchange(
    code: &[u32],
    redex: Redex,
    entries: &[u32],
    plan: &mut Plan,
    work: &mut [u32],
    weighed: Weighed,
)
    requires { Exchanging code.now redex entries.now plan.old.table plan.old.words work.old weighed.nodes weighed.root }
    ensures tables { Exchanges code.now redex entries.now plan.old.table plan.new.table plan.old.words work.old work.new weighed.nodes weighed.root }
    ensures words { plan.new.words ≡ plan.old.words }
{
    let first = 2 * redex.node;
    let next = first + 2 * weighed.nodes;
    set_aside(plan, first, first + redex.words, next, work);
    put_in(
        code,
        redex.words,
        entries,
        work,
        &mut plan.table,
        weighed.root,
        next,
    );
}

// The words from `first` to `end` of the plan, copied aside; and those behind them, put where the next plan has them, by way of the copy.
fn set_aside(plan: &mut Plan, first: usize, end: usize, next: usize, work: &mut [u32])
    requires { SettingAside plan.old.table work.old plan.old.words first end next }
    ensures tables { SetAside plan.old.table plan.new.table work.old work.new plan.old.words first end next }
    ensures words { plan.new.words ≡ plan.old.words }
{
    let words = plan.words;
    if end == next {
        copy(&plan.table[first..end], &mut work[ASIDE..]);
        return;
    }
    copy(&plan.table[first..words], &mut work[ASIDE..]);
    let behind = ASIDE + (end - first);
    let all = ASIDE + (words - first);
    copy(&work[behind..all], &mut plan.table[next..]);
}

// Kept (point 5): each of these is an argument of builder's `put_before`, and no other function takes them together.
// The new words, before a place of the plan. The working table is lent to read alone, so that two parts of it can be.
fn put_in(
    code: &[u32],
    old: usize,
    entries: &[u32],
    work: &[u32],
    plan: &mut [u32],
    root: usize,
    next: usize,
)
    requires { ((u : Term) × Built code.now (take old (drop 8192 work.now)) entries.now (take 8192 work.now) root u × (2 * nodes u ≤ next)) × (next ≤ length plan.old) × (8192 + old ≤ length work.now) }
    ensures { (u : Term) → Built code.now (take old (drop 8192 work.now)) entries.now (take 8192 work.now) root u → 2 * nodes u ≤ next → Wrote plan.old plan.new (next - 2 * nodes u) next (table_of u) }
{
    let behind = ASIDE + old;
    put_before(
        code,
        &work[ASIDE..behind],
        entries,
        &work[..ASIDE],
        plan,
        root,
        next,
    );
}

// Words to the front of a table.
pub fn copy(part: &[u32], table: &mut [u32])
    requires { length part.now ≤ length table.old }
    ensures { table.new ≡ part.now ++ drop (length part.now) table.old }
{
    // Kept (point 3): `copy_from_slice` becomes C's memmove, and the library asks memset and memcpy alone (include/reedbiscuit.h).
    for (i, word) in part.iter().enumerate() {
        table[i] = *word;
    }
}
