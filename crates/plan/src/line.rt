// The line that plan_apply prints (document 01, 'Bytes and the program'): numbers in decimal, single spaces, a newline.
ghost use Rattle.std.specs.Prelude.{◌∷◌, ◌+◌, ◌*◌, ◌≤◌, length};
ghost use Rattle.plan.specs.Line.{decimal, behind, line_of, Wrote};

const BASE: u32 = 10;

const DIGIT_0: u8 = 48;

const SPACE: u8 = 32;

const NEWLINE: u8 = 10;

// The most bytes of a 32-bit number, with the space or newline behind it.
pub const NUMBER_BYTES: usize = 11;

// The line at the front of the lent bytes, and how many bytes it has.
pub fn put_line(number: u32, count: u32, words: &[u32], line: &mut [u8]) -> usize
    requires { 11 * (2 + length words.now) ≤ length line.old }
    ensures { Wrote line.old line.new 0 result (line_of (number ∷ count ∷ words.now)) × (result ≤ length line.new) }
{
    let number_end = put_number(number, line, 0);
    let count_end = put_next(count, line, number_end);
    put_rest(words, line, count_end)
}

// The numbers behind the first ones, and the newline.
fn put_rest(words: &[u32], line: &mut [u8], at: usize) -> usize
    requires { at + 11 * length words.now + 1 ≤ length line.old }
    ensures { Wrote line.old line.new at result (behind words.now) × (result ≤ length line.new) }
{
    let mut end = at;
    for &word in words {
        end = put_next(word, line, end);
    }
    line[end] = NEWLINE;
    end + 1
}

// A space and a number.
fn put_next(n: u32, line: &mut [u8], at: usize) -> usize
    requires { at + 11 ≤ length line.old }
    ensures { Wrote line.old line.new at result (32 ∷ decimal n) }
{
    line[at] = SPACE;
    put_number(n, line, at + 1)
}

// A number's digits from a place on; all but the last are those of its tenth.
// Kept (point 4): by its contract `Display` may give an Err, which a line has none for, and `fmt::InlineText::of` may cut a number that fits (tried; `returns` doesn't close).
fn put_number(n: u32, line: &mut [u8], at: usize) -> usize
    requires { at + length (decimal n) ≤ length line.old }
    ensures { Wrote line.old line.new at result (decimal n) }
{
    if n < BASE {
        line[at] = DIGIT_0 + (n as u8);
        return at + 1;
    }
    let last = put_number(n / BASE, line, at);
    line[last] = DIGIT_0 + ((n % BASE) as u8);
    last + 1
}
