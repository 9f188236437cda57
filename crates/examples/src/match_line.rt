// Match on one case: calls it and prints the reply and the table.
use crate::cases::Case;
use crate::{lent, say};
use numbers::Numbers;
use std::io;

// Prints the answer: the first value says yes or no.
fn answer(rt: &impl Print, given: Numbers) -> io::Result<()> {
    say::answer(rt, given, if given[1] == 1 { "yes" } else { "no" })
}

// Matches, with a table of so many numbers, at most 130.
pub(crate) fn matched(rt: &impl Print, case: Case) -> io::Result<()> {
    let mut table = lent::filled();
    if let Some(table) = table.get_mut(..case.number) {
        let given = matcher::match_pattern(case.vocabulary, case.one, case.other, table);
        answer(rt, numbers::match_numbers(given))?;
        lent::contents(rt, table)?;
    }
    Ok(())
}
