// What the working table holds of a build instruction that made a term, a word at the place of its opcode, and of a body that was measured, a word
// behind that of its root.
// Kept (point 6): no heap; the places of the code are the indices, and C lends the table.
ghost use Rattle.std.specs.Prelude.{◌≡◌, ◌<◌, ◌≤◌};
ghost use Rattle.links.specs.Links.{link_of, before_in, over_in, depth_in, note_of, nodes_in, reach_in};

// Places in the code are below this.
const PLACES: u32 = 4096;

// Nodes of what was measured are below this.
const NODES: u32 = 8192;

// Of an instruction: the root of the term made before it, the root of the last of those that it took, and how deep it is.
#[derive(Clone, Copy)]
pub struct Link(pub u32);

impl Link {
    #[tactic(auto, unfolding(crate::specs::Links::link_of))]
    pub fn new(before: usize, over: usize, depth: u32) -> Link
        requires { (before < 4096) × (over < 4096) × (depth ≤ 65) }
        ensures { result.0 ≡ link_of before over depth }
    {
        Link((depth * PLACES + over as u32) * PLACES + before as u32)
    }

    #[tactic(auto, unfolding(crate::specs::Links::before_in))]
    pub fn before(self) -> usize
        ensures { result ≡ before_in self.0 }
    {
        (self.0 % PLACES) as usize
    }

    #[tactic(auto, unfolding(crate::specs::Links::over_in))]
    pub fn over(self) -> usize
        ensures { result ≡ over_in self.0 }
    {
        (self.0 / PLACES % PLACES) as usize
    }

    #[tactic(auto, unfolding(crate::specs::Links::depth_in))]
    pub fn depth(self) -> u32
        ensures { (result ≡ depth_in self.0) × (result ≤ 255) }
    {
        self.0 / PLACES / PLACES
    }
}

// Of a body: its nodes, and how far it reaches.
#[derive(Clone, Copy)]
pub struct Note(pub u32);

impl Note {
    #[tactic(auto, unfolding(crate::specs::Links::note_of))]
    pub fn new(nodes: usize, reach: u32) -> Note
        requires { (nodes < 8192) × (reach < 524288) }
        ensures { result.0 ≡ note_of nodes reach }
    {
        Note(reach * NODES + nodes as u32)
    }

    #[tactic(auto, unfolding(crate::specs::Links::nodes_in))]
    pub fn nodes(self) -> usize
        ensures { result ≡ nodes_in self.0 }
    {
        (self.0 % NODES) as usize
    }

    #[tactic(auto, unfolding(crate::specs::Links::reach_in))]
    pub fn reach(self) -> u32
        ensures { result ≡ reach_in self.0 }
    {
        self.0 / NODES
    }
}
