// A reply as text, in document 01's numbers.
use numbers::Numbers;
use std::io;

// Prints bytes in hexadecimal, or that there are none, and ends the line.
pub(crate) fn bytes(rt: &impl Print, found: &[u8]) -> io::Result<()> {
    if found.is_empty() {
        print!(rt; "empty")?;
    }
    for byte in found {
        print!(rt; "{byte:02x}")?;
    }
    println!(rt; "")
}

// A refusal's number, input and place.
fn refused(rt: &impl Print, given: Numbers) -> io::Result<()> {
    let [number, input, place, _, _] = given;
    print!(rt; "refused {number} {input} {place}")
}

// A reply with two values, or a refusal.
pub(crate) fn reply(rt: &impl Print, given: Numbers) -> io::Result<()> {
    match given {
        [0, one, other, _, _] => print!(rt; "accepted {one} {other}"),
        _ => refused(rt, given),
    }
}

// A reply that has a text where it accepts, or a refusal.
pub(crate) fn answer(rt: &impl Print, given: Numbers, accepted: &str) -> io::Result<()> {
    match given {
        [0, ..] => print!(rt; "{accepted}"),
        _ => refused(rt, given),
    }
}

// Checks a vocabulary and prints the reply.
pub(crate) fn vocabulary(rt: &impl Print, vocabulary: &[u8]) -> io::Result<()> {
    let given = numbers::vocabulary_numbers(signature::check_vocabulary(vocabulary));
    answer(rt, given, "accepted")?;
    println!(rt; "")
}

// Checks a term under a vocabulary and prints the reply, with four values where it accepts.
pub(crate) fn term(rt: &impl Print, vocabulary: &[u8], term: &[u8]) -> io::Result<()> {
    let given = numbers::term_numbers(reader::check_term(vocabulary, term));
    match given {
        [0, words, level, complete, gap] => print!(rt;
            "accepted {words} {level} {complete} {gap}"
        )?,
        _ => refused(rt, given)?,
    }
    println!(rt; "")
}
