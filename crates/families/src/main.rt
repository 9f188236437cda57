// Compares match with a second matcher over families of patterns and situations, and prints a line a family:
// its label and its counts. tools/expected.py says what it must print.
#![tactic(auto)]

mod addresses;
mod family;
mod family_cases;

use std::io;

fn main(rt: HostRuntime) -> io::Result<()> {
    family_cases::all(&rt)
}
