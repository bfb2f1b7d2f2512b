// The byte reader (document 01, 'Bytes and the program'). A file is looked at to its end before the first word is written.
#![tactic(auto)]

ghost use Rattle.std.specs.Prelude.{◌≡◌, ◌+◌, ◌-◌, ◌*◌, ◌%◌, ◌^◌, ◌≤◌, ◌<◌, length, drop};
ghost use Rattle.std.proofs.lemmas.List.Edits.{sets};
ghost use Rattle.documents.specs.Calls.{at_front, file_in, read_call};
ghost use Rattle.reader.specs.Reader.{given, counts_of, count_in, words_from, word_at};

use documents::Refusal;

// The version byte, and the place of the section behind it.
const VERSION: u8 = 1;

const LEFT_AT: usize = 1;

pub const WORD_BYTES: usize = 4;

// The words of a vector.
const VECTOR_WORDS: usize = 4;

// The most words of a side and of a subject.
pub const SIDE_WORDS: usize = 1024;

pub const SUBJECT_WORDS: usize = 8192;

// The word counts of a file's tables.
#[derive(Clone, Copy)]
pub struct Counts {
    pub left: u32,
    pub right: u32,
    pub subject: u32,
}

// The words of a file's tables at the front of the lent ones, or 17 and no word changed.
pub fn read(
    file: &[u8],
    left: &mut [u32],
    right: &mut [u32],
    subject: &mut [u32],
) -> Result<Counts, Refusal>
    ensures { given result left.new right.new subject.new ≡ read_call file.now left.old right.old subject.old }
{
    let found = file_in(left.len(), right.len(), subject.len(), file);
    let counts = found.ok_or(Refusal::BadFile)?;
    let right_at = LEFT_AT + section_bytes(counts.left);
    let subject_at = right_at + section_bytes(counts.right);
    put_words(file, LEFT_AT + WORD_BYTES, counts.left, left);
    put_words(file, right_at + WORD_BYTES, counts.right, right);
    put_words(file, subject_at + WORD_BYTES, counts.subject, subject);
    Ok(counts)
}

// The counts of a whole file's tables, each within its limit and the words lent for it. That the version is there shows at the first count; that a
// table's words are, at the next count or at the end.
fn file_in(left: usize, right: usize, subject: usize, file: &[u8]) -> Option<Counts>
    ensures { result ≡ counts_of (file_in left right subject file.now) }
{
    let l = count_in(SIDE_WORDS, left, file, LEFT_AT)?;
    if file[0] != VERSION {
        return None;
    }
    let right_at = LEFT_AT + section_bytes(l);
    let r = count_in(SIDE_WORDS, right, file, right_at)?;
    let subject_at = right_at + section_bytes(r);
    let s = count_in(SUBJECT_WORDS, subject, file, subject_at)?;
    if file.len() != subject_at + section_bytes(s) {
        return None;
    }
    Some(Counts {
        left: l,
        right: r,
        subject: s,
    })
}

// The count that stands at a place, at most `limit` and `room`.
fn count_in(limit: usize, room: usize, file: &[u8], at: usize) -> Option<u32>
    requires { at + 4 < 2 ^ 64 }
    ensures { result ≡ count_in limit room (drop at file.now) }
{
    if file.len() < at + WORD_BYTES {
        return None;
    }
    let count = word_at(file, at);
    let words = count as usize;
    if limit < words || room < words {
        return None;
    }
    Some(count)
}

// The word at a place.
fn word_at(file: &[u8], at: usize) -> u32
    requires { at + 4 ≤ length file.now }
    ensures { result ≡ word_at file.now at }
{
    u32::from_be_bytes([file[at], file[at + 1], file[at + 2], file[at + 3]])
}

// A count and that many words.
fn section_bytes(count: u32) -> usize
    ensures { result ≡ 4 + 4 * count }
{
    WORD_BYTES + WORD_BYTES * (count as usize)
}

// The words from a place on, at the front of a table: first those that fill no vector, since then vectors alone are left.
fn put_words(file: &[u8], at: usize, count: u32, table: &mut [u32])
    requires { (count ≤ length table.old) × (at + 4 * count ≤ length file.now) }
    ensures { table.new ≡ at_front table.old (words_from file.now at count) }
{
    let words = count as usize;
    let first = words % VECTOR_WORDS;
    put_each(file, at, &mut table[..first]);
    put_vectors(file, at + WORD_BYTES * first, &mut table[first..words]);
}

// The words from a place on fill a table, word by word.
fn put_each(file: &[u8], at: usize, table: &mut [u32])
    requires { at + 4 * length table.old ≤ length file.now }
    ensures { table.new ≡ words_from file.now at (length table.old) }
{
    for (i, word) in table.iter_mut().enumerate() {
        *word = word_at(file, at + WORD_BYTES * i);
    }
}

// The same, vector by vector.
// Kept (point 2): since the compiler is not told that a table is no part of the file, it would begin a loop over single words with a
// comparison of the addresses, which costs small files a fifth of their instructions (docs/BENCHMARKS.md, 'Reading a file').
fn put_vectors(file: &[u8], at: usize, table: &mut [u32])
    requires { (at + 4 * length table.old ≤ length file.now) × (length table.old % 4 ≡ 0) }
    ensures { table.new ≡ words_from file.now at (length table.old) }
{
    for vector in 0..table.len() / VECTOR_WORDS {
        let i = VECTOR_WORDS * vector;
        put_four(file, at + WORD_BYTES * i, i, table);
    }
}

// Four words, as one vector. All are loaded before the first is stored, since a store between two loads would keep them apart.
fn put_four(file: &[u8], at: usize, i: usize, table: &mut [u32])
    requires { (i + 4 ≤ length table.old) × (at + 16 ≤ length file.now) }
    ensures { table.new ≡ sets table.old i (words_from file.now at 4) }
{
    let a = word_at(file, at);
    let b = word_at(file, at + WORD_BYTES);
    let c = word_at(file, at + 2 * WORD_BYTES);
    let d = word_at(file, at + 3 * WORD_BYTES);
    table[i] = a;
    table[i + 1] = b;
    table[i + 2] = c;
    table[i + 3] = d;
}
