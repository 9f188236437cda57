// List, list_book or fill on one case: calls it and prints the reply and what the line asks of the lent slice.
use crate::cases::Case;
use crate::entries::Entries;
use crate::{say, sums};
use numbers::Numbers;
use std::io;

// What the lent slice holds everywhere before the call.
const LENT: u8 = 0xee;

// The call that a line asks for, with what it tells.
#[derive(Clone, Copy)]
pub(crate) enum Call {
    // list, and the whole slice
    List,
    // list, and a sum of the entries' bytes
    Sum,
    // list, and as which entry a given one stands there
    Find,
    // list_book, and a sum of the entries' own sums
    Book,
    // list_book, and how often a given entry stands there
    Holds,
    // fill, and the whole slice
    Write,
}

// How many bytes of the slice the entries have.
fn written(given: Numbers) -> usize {
    match given {
        [0, _, bytes, _, _] => bytes as usize,
        _ => 0,
    }
}

// Tells a sum of the entries, and how many bytes behind them are as lent.
fn told_sum(rt: &impl Print, sum: usize, behind: &[u8]) -> io::Result<()> {
    let as_lent = behind.iter().filter(|byte| **byte == LENT).count();
    let length = behind.len();
    println!(rt; ", sum {sum}, {as_lent} of {length} behind as lent")
}

// Tells as which of the entries, from 1, the sought one stands there.
fn told_place(rt: &impl Print, mut entries: Entries, sought: &[u8]) -> io::Result<()> {
    match entries.position(|entry| entry == sought) {
        Some(before) => {
            let number = before.saturating_add(1);
            println!(rt; ", it is entry {number}")
        }
        None => println!(rt; ", it is no entry"),
    }
}

// Tells how often the sought entry stands there.
fn told_standing(rt: &impl Print, entries: Entries, sought: &[u8]) -> io::Result<()> {
    let number = entries.filter(|entry| *entry == sought).count();
    println!(rt; ", stands {number}")
}

// Tells what the line asks of the slice, whose first so many bytes are the entries.
fn told(rt: &impl Print, call: Call, case: Case, out: &[u8], n: usize) -> io::Result<()> {
    let (bytes, behind) = out.split_at(n.min(out.len()));
    let entries = Entries::of(case.vocabulary, bytes);
    match call {
        Call::Sum => told_sum(rt, usize::from(sums::sum(bytes)), behind),
        Call::Book => told_sum(rt, entries.sum(), behind),
        Call::Find => told_place(rt, entries, case.other),
        Call::Holds => told_standing(rt, entries, case.other),
        Call::List | Call::Write => {
            print!(rt; ", ")?;
            say::bytes(rt, out)
        }
    }
}

// Fills or lists into the lent slice.
fn reply(call: Call, case: Case, out: &mut [u8]) -> Numbers {
    match call {
        Call::Write => numbers::fill_numbers(filler::fill(
            case.vocabulary,
            case.one,
            case.other,
            out,
        )),
        Call::Book | Call::Holds => numbers::book_numbers(books::list_book(
            case.vocabulary,
            case.one,
            out,
        )),
        Call::List | Call::Sum | Call::Find => {
            numbers::list_numbers(complement::list(case.vocabulary, case.one, out))
        }
    }
}

// Makes the call with so many bytes of the lent array, and tells the answer and what the line asks of them. Where it has
// fewer, nothing is called.
fn asked(rt: &impl Print, call: Call, case: Case, lent: &mut [u8; 524288]) -> io::Result<()> {
    let Some(out) = lent.get_mut(..case.number) else {
        return Ok(());
    };
    let given = reply(call, case, out);
    say::reply(rt, given)?;
    told(rt, call, case, out, written(given))
}

// Makes the call with as many bytes as the line says, at most 524,288.
pub(crate) fn called(rt: &impl Print, call: Call, case: Case) -> io::Result<()> {
    let mut lent = [LENT; 524288];
    asked(rt, call, case, &mut lent)
}
