// How deep the build part is.
ghost use Rattle.std.specs.Prelude.{◌≡◌, ◌&&◌, true, false, ◌+◌, ◌<◌, ◌≤◌, ltb, MatchOption};

use instructions::limit::{MOST_NESTED, MOST_OPEN};

// How many LAMBDAs are open, and how many blocks and bodies. Each LAMBDA is a block, so there are more of these in a body and nowhere else.
#[derive(Clone, Copy)]
pub struct Nesting {
    pub lambdas: u32,
    pub nested: u32,
    pub ghost open: { lambdas ≤ 63 },
    pub ghost deep: { nested ≤ 64 },
    pub ghost blocks: { lambdas ≤ nested },
}

impl Nesting {
    // The block of a LAMBDA here, if one may be opened.
    pub fn block(self) -> Option<Nesting>
        ensures { MatchOption result (ltb self.lambdas 63 && ltb self.nested 64 ≡ false) (λ block. (ltb self.lambdas 63 && ltb self.nested 64 ≡ true) × (block.lambdas ≡ self.lambdas + 1) × (block.nested ≡ self.nested + 1)) }
    {
        if MOST_OPEN <= self.lambdas || MOST_NESTED <= self.nested {
            return None;
        }
        Some(Nesting {
            lambdas: self.lambdas + 1,
            nested: self.nested + 1,
        })
    }

    // A body here.
    pub fn body(self) -> Option<Nesting>
        ensures { MatchOption result (64 ≤ self.nested) (λ body. (self.nested < 64) × (body.lambdas ≡ self.lambdas) × (body.nested ≡ self.nested + 1)) }
    {
        if MOST_NESTED <= self.nested {
            return None;
        }
        Some(Nesting {
            lambdas: self.lambdas,
            nested: self.nested + 1,
        })
    }

    pub fn is_in_body(self) -> bool
        ensures { result ≡ ltb self.lambdas self.nested }
    {
        self.lambdas < self.nested
    }
}
