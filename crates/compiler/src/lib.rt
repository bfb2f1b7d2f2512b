// From two tables to code (document 01, 'Rules, valuations, translation'): Kahrs's translation in 01's words. The code's length is known before
// the first word is written.
#![tactic(auto)]

pub mod sides; // what is asked of the sides before their metavariables: 2, 1, 3; 2, 1, 3; 5, 6, 7
pub mod length; // the length of a right side's code

ghost use Rattle.std.specs.Prelude.{◌≡◌};
ghost use Rattle.documents.specs.Calls.{at_front, compile_call};
ghost use Rattle.documents.specs.Translation.{compile};
ghost use Rattle.documents.specs.Instructions.{words};
ghost use Rattle.tables.specs.Parts.{front};
ghost use Rattle.compiler.specs.Answers.{given, Sides, Generating, Crowded, crowded};

use crate::length::right_words;
use crate::sides::accept_sides;
use documents::Refusal;
use generator::left::left_side;
use generator::right::right_side;
use keys::all_known;
use symbols::table::SymbolTable;
use symbols::{ROW_WORDS, all_found, enter_all};

// The code of a rule at the front of the code table, and how many words it has; or the first refusal of left 2, 1, 3; right 2, 1, 3; then 5, 6, 7,
// 8, 9, 10, and no word changed.
pub fn compile(left: &[u32], right: &[u32], code: &mut [u32]) -> Result<u32, Refusal>
    ensures { given result code.new ≡ compile_call left.now right.now code.old }
{
    accept_sides(left, right)?;
    translate(left, right, code)
}

// 8, 9, 10, or the code.
fn translate(left: &[u32], right: &[u32], code: &mut [u32]) -> Result<u32, Refusal>
    requires { Sides left.now right.now }
    ensures { given result code.new ≡ compile_call left.now right.now code.old }
{
    let mut table = SymbolTable::new();
    let Some(entered) = enter_all(left, 0, &mut table) else {
        return Err(over_sixteen(left, right));
    };
    let rows = table.rows();
    if !all_found(right, rows) {
        return Err(Refusal::MetavariableAbsentOnLeft);
    }
    let words = entered.words + right_words(right);
    if code.len() < words {
        return Err(Refusal::CodeTableShort);
    }
    generate(left, right, rows, code);
    Ok(words as u32)
}

// A left side with more metavariables than the table has rows: 8 or 9.
fn over_sixteen(left: &[u32], right: &[u32]) -> Refusal
    requires { Crowded left.now right.now }
    ensures { result ≡ crowded (front left.now) (front right.now) }
{
    if all_known(right, left) {
        Refusal::TooManyMetavariables
    } else {
        Refusal::MetavariableAbsentOnLeft
    }
}

// Left code, then right code. As many SETs are to come as there are rows.
fn generate(left: &[u32], right: &[u32], rows: &[u32], code: &mut [u32])
    requires { Generating left.now right.now rows.now code.old }
    ensures { code.new ≡ at_front code.old (words (compile (front left.now) (front right.now))) }
{
    let sets = rows.len() / ROW_WORDS;
    let matched = left_side(left, 0, sets, rows, code, 0);
    right_side(right, 0, rows, code, matched.next);
}
