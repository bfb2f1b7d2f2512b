// The program plan_apply but for its input and output (document 01, 'Bytes and the program'): from the bytes of a file to the bytes of a line.
#![tactic(auto)]

pub mod line; // numbers in decimal

ghost use Rattle.std.specs.Prelude.{◌≡◌};
ghost use Rattle.documents.specs.Calls.{read_call, plan_apply};
ghost use Rattle.plan.specs.Line.{line_of, Wrote, Counts};
ghost use Rattle.plan.specs.Program.{told, planned, Leaves};

use crate::line::{NUMBER_BYTES, put_line};
use answers::{DONE, ReedAnswer};
use instructions::limit::MOST_WORDS;
use reader::{SIDE_WORDS, SUBJECT_WORDS, WORD_BYTES};
use reedbiscuit::{reed_compile, reed_read, reed_run};
use runner::WORKING_WORDS;

// The words of the result table that the program lends.
const RESULT_WORDS: usize = 8192;

// The bytes of the longest file: a version, and for each table a count and its words.
pub const FILE_BYTES: usize = 1 + WORD_BYTES * (3 + 2 * SIDE_WORDS + SUBJECT_WORDS);

// The bytes of the longest line: number, word count and a full result table.
pub const LINE_BYTES: usize = NUMBER_BYTES * (2 + RESULT_WORDS);

// The line for a file, at the front of the lent bytes, and how many bytes it has.
pub fn line_for(file: &[u8], line: &mut [u8; LINE_BYTES]) -> usize
    ensures { Wrote line.old line.new 0 result (line_of (plan_apply file.now)) × Counts result line.new }
{
    // Kept (point 6): no heap, and tables of the sizes that 01 asks for.
    let mut left = [0u32; SIDE_WORDS];
    let mut right = [0u32; SIDE_WORDS];
    let mut subject = [0u32; SUBJECT_WORDS];
    let mut code = [0u32; MOST_WORDS];
    let mut working = [0u32; WORKING_WORDS];
    let mut result = [0u32; RESULT_WORDS];
    let applied = apply(
        file,
        &mut left,
        &mut right,
        &mut subject,
        &mut code,
        &mut working,
        &mut result,
    );
    let words = applied.words as usize;
    put_line(applied.number, applied.words, &result[..words], line)
}

// Reads, compiles and runs, by the library's own calls. The first call that refuses ends the work.
// Kept (point 1): these calls answer by 01's numbers, as they answer C, and the program is to go through them (docs/DECISIONS.md, 80).
// Kept (point 5): a public function, which asks for its tables one by one as the calls of C do.
pub fn apply(
    file: &[u8],
    left: &mut [u32],
    right: &mut [u32],
    subject: &mut [u32],
    code: &mut [u32],
    working: &mut [u32],
    res: &mut [u32],
) -> ReedAnswer
    ensures { (told result code.new working.new res.new ≡ planned file.now left.old right.old subject.old code.old working.old res.old) × Leaves (read_call file.now left.old right.old subject.old) left.new right.new subject.new }
{
    let read = reed_read(file, left, right, subject);
    if read.number != DONE {
        return ReedAnswer {
            number: read.number,
            words: 0,
        };
    }
    let left = &left[..read.left as usize];
    let right = &right[..read.right as usize];
    let subject = &subject[..read.subject as usize];
    let compiled = reed_compile(left, right, code);
    if compiled.number != DONE {
        return ReedAnswer {
            number: compiled.number,
            words: 0,
        };
    }
    reed_run(&code[..compiled.words as usize], subject, working, res)
}
