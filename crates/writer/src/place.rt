// Where in a result a tree is written.
ghost use Rattle.std.specs.Prelude.{◌+◌, ◌*◌, ◌≤◌};

// What a tree stands under, and what it stands in.
#[derive(Clone, Copy)]
pub struct Place {
    // OFFSET: how many abstractions of entries were crossed.
    pub offset: u32,
    // Open LAMBDAs.
    pub lambdas: usize,
    // Nodes further out that wait.
    pub level: usize,
    // How many words of the code it takes at most: fewer in a body than around it, so the walk ends.
    pub words: usize,
    ghost few: { lambdas ≤ 63 },
    ghost small: { offset + 64 * words ≤ 1048576 },
}
