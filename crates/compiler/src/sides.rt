// What is asked of the two sides before their metavariables are: 2, 1, 3 of the left; 2, 1, 3 of the right; then 5, 6, 7.
ghost use Rattle.std.specs.Prelude.{◌≡◌, ◌&&◌};
ghost use Rattle.documents.specs.Rules.{is_symbol, closed};
ghost use Rattle.tables.specs.Parts.{front, Begins};
ghost use Rattle.compiler.specs.Answers.{sides_in, sides_answer};

use documents::Refusal;
use tables::accept::accept;
use tables::forbid::is_closed;
use tables::node::{FIRST_METAVARIABLE, FIRST_SYMBOL, SIDE_NODES};
use tables::side::is_simple;

// The left side's node count, or a refusal.
pub fn accept_sides(left: &[u32], right: &[u32]) -> Result<usize, Refusal>
    ensures { result ≡ sides_answer (sides_in left.now right.now) }
{
    let nodes = accept(left, SIDE_NODES)?;
    accept(right, SIDE_NODES)?;
    if !is_symbol(left) {
        return Err(Refusal::LeftRootNoSymbol);
    }
    if !both_closed(left, right) {
        return Err(Refusal::FreeVariable);
    }
    if !is_simple(left) {
        return Err(Refusal::ArgumentsNotDistinctVariables);
    }
    Ok(nodes)
}

// Whether a part begins with a symbol.
fn is_symbol(part: &[u32]) -> bool
    requires { Begins 1 part.now }
    ensures { result ≡ is_symbol (front part.now) }
{
    FIRST_SYMBOL <= part[0] && part[0] < FIRST_METAVARIABLE
}

// Whether neither side has a free variable.
fn both_closed(left: &[u32], right: &[u32]) -> bool
    requires { Begins 1 left.now × Begins 1 right.now }
    ensures { result ≡ closed (front left.now) && closed (front right.now) }
{
    is_closed(left) && is_closed(right)
}
