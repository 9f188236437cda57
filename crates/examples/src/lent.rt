// The lent table of match: filled before the call with numbers that no entry of an answer can be, and told after
// it by what each entry is.
use std::{array, io};

// What the lent table holds at an index before the call.
fn mark(i: usize) -> u16 {
    (60000 + i % 1000) as u16
}

pub(crate) fn filled() -> [u16; 130] {
    array::from_fn(|i| mark(i))
}

// What the call did to an entry.
#[derive(Clone, Copy, PartialEq, Eq)]
enum Entry {
    AsLent,
    Zero,
    Other,
}

impl Entry {
    fn of(i: usize, value: u16) -> Entry {
        if value == 0 {
            Entry::Zero
        } else if value == mark(i) {
            Entry::AsLent
        } else {
            Entry::Other
        }
    }
}

// How many entries are of a sort.
fn count(table: &[u16], wanted: Entry) -> usize {
    table
        .iter()
        .enumerate()
        .filter(|(i, value)| Entry::of(*i, **value) == wanted)
        .count()
}

// Prints how many entries are as lent, how many are 0, and all the others.
pub(crate) fn contents(rt: &impl Print, table: &[u16]) -> io::Result<()> {
    let as_lent = count(table, Entry::AsLent);
    let zero = count(table, Entry::Zero);
    print!(rt; ", {as_lent} as lent, {zero} zero")?;
    for (i, value) in table.iter().enumerate() {
        if Entry::of(i, *value) == Entry::Other {
            print!(rt; " {i}={value}")?;
        }
    }
    println!(rt; "")
}
