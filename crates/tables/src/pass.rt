// Passing over a subterm, NEXT of the machine.
ghost use Rattle.std.specs.Prelude.{◌≡◌};
ghost use Rattle.tables.specs.Parts.{front, Begins, word_count};

use crate::walk::Nodes;

// How many words the subterm has that a part begins with.
pub fn skip(part: &[u32]) -> usize
    requires { Begins 1 part.now }
    ensures { result ≡ word_count (front part.now) }
{
    let mut nodes = Nodes::of(part);
    while let Some(_) = nodes.next() {}
    nodes.passed()
}
