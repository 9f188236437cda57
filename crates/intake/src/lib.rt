// Reading an input. A read that fails is told apart from the end.
#![tactic(auto)]

ghost use Rattle.intake.specs.Input.{Comes, Within};

use std::io;
use std::io::Read;

// Reads until the buffer is full or the input ends, and gives how many bytes came. A read that fails is not the end, whatever
// came before it.
pub fn take<R: Read>(input: &mut R, buffer: &mut [u8]) -> io::Result<usize>
    ensures within { Within buffer.new result }
    ensures comes { Comes (R.remaining input.old) (R.remaining input.new) buffer.new result }
{
    let mut n = 0;
    // Kept: a read brings as many bytes as it likes, so no iterator counts them, and the count is the answer.
    while n < buffer.len() {
        match input.read(&mut buffer[n..])? {
            0 => break,
            more => n += more,
        }
    }
    Ok(n)
}
