// The nodes above a node of a plan, a word each: its number times TERMS, and how many of its arguments are still to begin, for the nearest of them the
// argument at hand too. The first word stands for no node: it owes the plan itself. So a node's level is its depth, and the nodes above it are the
// words from 1 on, the root first.
#![tactic(auto)]

ghost use Rattle.std.specs.Prelude.{◌≡◌, ◌≤◌, ◌<◌, ◌/◌};
ghost use Rattle.documents.specs.Tables.{nodes};
ghost use Rattle.tables.specs.Parts.{front};
ghost use Rattle.levels.specs.Levels.{Above};
ghost use Rattle.levels.specs.Owing.{Owes, owing_from};

// More than the arguments of a node.
const TERMS: u32 = 16;

// The deepest node is at depth 64, and going on from it writes a word behind those above it.
pub const LEVELS: usize = 65;

// The node of such a word.
pub fn node_of(word: u32) -> usize
    ensures { result ≡ word / 16 }
{
    (word / TERMS) as usize
}

// The words, and how many of them stand above the node at hand, which is its level.
// Kept (points 4, 6): no heap; and a word for two numbers, since these stand in the frame of a call, where stack is scarce.
#[derive(Drop)]
pub struct Levels {
    pub words: [u32; LEVELS],
    pub level: usize,
}

impl Levels {
    // From one node on to a later one.
    pub fn go(&mut self, plan: &[u32], from: usize, to: usize)
        requires { Above plan.now from self.old.words self.old.level × (from ≤ to) × (to < nodes (front plan.now)) }
        ensures { Above plan.now to self.new.words self.new.level }
    {
        let above = &mut self.words;
        let mut here = self.level;
        for node in from..to {
            above[here - 1] -= 1;
            above[here] = node as u32 * TERMS + plan[2 * node + 1];
            here = owing(above, here + 1);
        }
        self.level = here;
    }
}

// Words at the end that owe nothing any more are done.
// Kept (point 3): counted from the end by `take_while`, which proved, they made a search through a large plan take up to twice its time.
fn owing(above: &[u32; LEVELS], level: usize) -> usize
    requires { Owes above.now level }
    ensures { result ≡ owing_from above.now level }
{
    let mut here = level;
    while above[here - 1] % TERMS == 0 {
        here -= 1;
    }
    here
}
