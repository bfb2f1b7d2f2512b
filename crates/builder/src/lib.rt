// The build part, for a run at a root and for a rewrite within a plan: what a rule makes of a subterm is weighed before a word of it is written, and then
// written before a place of a table.
#![tactic(auto)]

ghost use Rattle.std.specs.Prelude.{◌≡◌, ◌-◌, ◌*◌, ◌/◌, ◌≤◌, min, length};
ghost use Rattle.documents.specs.Terms.{Term};
ghost use Rattle.documents.specs.Tables.{table_of, nodes};
ghost use Rattle.documents.specs.Calls.{zeros};
ghost use Rattle.writer.specs.Written.{Wrote};
ghost use Rattle.builder.specs.Weighing.{Building, Built, Weighs};

use documents::Refusal;
use links::given::Given;
use links::link::Link;
use measurer::walk::Walk;
use measurer::{Measured, measure};
use tables::node::{MOST_DEPTH, PLAN_NODES};
use writer::place::Place;
use writer::write;

// Indices reach one further than the highest of them, which may be 65,535.
const MOST_REACH: u32 = 65536;

// Open LAMBDAs, and nodes above: a result is at most 64 deep.
const OPENED: usize = 128;

// The nodes of what is made, and the root of its tree.
#[derive(Clone, Copy)]
pub struct Weighed {
    pub nodes: usize,
    pub root: usize,
}

// The build part from its place on, for a root at a level, the whole's own root being at 1, and so much room; or which limit the whole breaks: 13, 14, 15.
//
// Kept (point 5): code, subject and entries come apart, since a rewrite's subject is a part of the plan here and a part of its copy in `put_before`. Both
// make a `Given` of them.
pub fn weigh(
    code: &[u32],
    at: usize,
    subject: &[u32],
    entries: &[u32],
    work: &mut [u32],
    room: usize,
    level: usize,
) -> Result<Weighed, Refusal>
    requires { Building code.now at subject.now entries.now work.old × (room ≤ 4096) × (1 ≤ level) × (level ≤ 64) }
    ensures { Weighs code.now subject.now entries.now work.old work.new room level result }
{
    let given = Given {
        code,
        subject,
        entries,
    };
    let walk = Walk { given, most: room };
    let made = measure(&walk, at, code.len(), work);
    let Measured { nodes, reach, root } = made.ok_or(Refusal::ResultTooLarge)?;
    if MOST_DEPTH + 1 < level + Link(work[root]).depth() as usize {
        return Err(Refusal::ResultTooDeep);
    }
    if MOST_REACH < reach {
        return Err(Refusal::ResultIndexTooLarge);
    }
    Ok(Weighed { nodes, root })
}

// What was weighed, before a place of a table.
pub fn put_before(
    code: &[u32],
    subject: &[u32],
    entries: &[u32],
    work: &[u32],
    table: &mut [u32],
    root: usize,
    end: usize,
)
    requires { ((u : Term) × Built code.now subject.now entries.now work.now root u × (2 * nodes u ≤ end)) × (end ≤ length table.old) }
    ensures { (u : Term) → Built code.now subject.now entries.now work.now root u → 2 * nodes u ≤ end → Wrote table.old table.new (end - 2 * nodes u) end (table_of u) }
{
    // Kept (point 6): no heap; a stack of the most that may be open.
    let mut opened = [0u32; OPENED];
    let given = Given {
        code,
        subject,
        entries,
    };
    let place = Place {
        offset: 0,
        lambdas: 0,
        level: 0,
        words: code.len(),
    };
    write(&given, work, table, &mut opened, root, end, place);
}

// How many nodes a result may have, for a result table of so many words.
pub fn room(words: usize) -> usize
    ensures { result ≡ min 4096 (words / 2) }
{
    (PLAN_NODES as usize).min(words / 2)
}

// A working table after a call.
pub fn clear(work: &mut [u32])
    ensures { work.new ≡ zeros work.old }
{
    work.fill(0);
}
