// Reads cases from standard input, makes the call that each asks for, and prints a line a case: its label, and the
// reply in document 01's numbers. The file `stdin` beside src/ has the cases; tools/expected.py says what they give.
#![tactic(auto)]

mod cases;
mod entries;
mod lent;
mod match_line;
mod notation;
mod say;
mod slice_line;
mod sums;
mod text_line;

use std::io;
use std::io::{Error, ErrorKind};

fn main(rt: HostRuntime) -> io::Result<()> {
    let mut input = [0u8; 393216];
    match intake::take(&mut rt.stdin(), &mut input) {
        Ok(n) => cases::lines(&rt, input.get(..n).unwrap_or(&[])),
        Err(_) => Err(Error::new(ErrorKind::InvalidInput, "the cases could not be read")),
    }
}
