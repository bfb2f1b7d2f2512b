// The program plan_apply (document 01, 'Bytes and the program'): a file on standard input, one line on standard output. What the line says is decided
// and proved in `plan`; here its bytes come in and go out.
#![tactic(auto)]

ghost use Rattle.plan.specs.Line.{Counts};

use plan::{FILE_BYTES, LINE_BYTES};
use std::io::{Print, Read};

// A byte more than the longest file has, so that a longer one is seen to be longer, and refused.
const TAKEN_BYTES: usize = FILE_BYTES + 1;

fn main(rt: HostRuntime) {
    let mut file = [0u8; TAKEN_BYTES];
    let length = take_file(&mut rt.stdin(), &mut file);
    let mut line = [0u8; LINE_BYTES];
    let bytes = plan::line_for(&file[..length], &mut line);
    let _ = rt.write_all(&line[..bytes]);
}

// Reads the input to its end, or until the lent bytes are full. What cannot be read is no file: it is taken for an empty one.
// Kept (point 3): `Read::read_exact` reads again where a signal interrupts, which is an empty file here, and does not say how many bytes there were before the end.
fn take_file<R: Read>(input: &mut R, file: &mut [u8]) -> usize
    ensures { Counts result file.new }
{
    let mut taken: usize = 0;
    while taken < file.len() {
        match input.read(&mut file[taken..]) {
            Err(_) => return 0,
            Ok(0) => return taken,
            Ok(more) => taken += more,
        }
    }
    taken
}
