// The entries that the match part makes.
ghost use Rattle.std.specs.Prelude.{◌≡◌, [], ◌∷◌, ℕ, ◌<◌, ◌≤◌, get_or};
ghost use Rattle.documents.specs.Passing.{slot};
ghost use Rattle.indices.specs.Sets.{members};

use instructions::limit::MOST_ENTRIES;

// The newest last: the depth b, and as guard the set of the indices that its CHECK lists. They go by value.
// Kept (point 6): 01 wants the checker's state by value, with flat arrays of depths and guards (docs/PROMISES.md, last table).
#[derive(Clone, Copy)]
pub struct Stored {
    pub count: usize,
    pub depths: [u8; MOST_ENTRIES],
    pub guards: [u64; MOST_ENTRIES],
    pub ghost few: { count ≤ 16 },
}

// What the match part makes of them: no depth is above 63.
#[derive(Clone, Copy)]
pub struct Entries {
    pub stored: Stored,
    pub ghost low: { (i : ℕ) → get_or stored.depths i 0 ≤ 63 },
}

#[derive(Clone, Copy)]
pub struct Entry {
    pub depth: u32,
    pub guard: u64,
}

impl Stored {
    ghost use Rattle.turns.specs.Held.{found_in, same_depth};

    // An entry, counted from the newest.
    pub fn find(&self, x: u32) -> Option<Entry>
        ensures { result ≡ found_in self.now x }
    {
        if self.count <= x as usize {
            return None;
        }
        let i = self.count - 1 - x as usize;
        Some(Entry {
            depth: u32::from(self.depths[i]),
            guard: self.guards[i],
        })
    }

    // Whether it is there, with this depth.
    pub fn has_depth(&self, x: u32, d: u32) -> bool
        ensures { result ≡ same_depth (found_in self.now x) d }
    {
        match self.find(x) {
            Some(entry) => d == entry.depth,
            None => false,
        }
    }
}

impl Entries {
    ghost use Rattle.turns.specs.Held.{entries_of};

    pub fn new() -> Self
        ensures { entries_of result ≡ [] }
    {
        Entries {
            stored: Stored {
                count: 0,
                depths: [0; MOST_ENTRIES],
                guards: [0; MOST_ENTRIES],
            },
        }
    }

    // The newest from now on.
    pub fn enter(&mut self, depth: u8, guard: u64)
        requires { (self.old.stored.count < 16) × (depth ≤ 63) }
        ensures { entries_of self.new ≡ slot depth (members guard) ∷ entries_of self.old }
    {
        self.stored.depths[self.stored.count] = depth;
        self.stored.guards[self.stored.count] = guard;
        self.stored.count += 1;
    }
}
