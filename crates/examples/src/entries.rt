// The entries of a listing, one behind the other. The order of a book's is left open, so nothing that is told of them
// depends on it.
ghost use Rattle.std.specs.Prelude.{length};
ghost use Rattle.std.specs.Iterator.{at_most};

use crate::sums;
use reader::{CheckRefusal, TermRefusal};

#[derive(Drop)]
pub(crate) struct Entries<'a> {
    vocabulary: &'a [u8],
    rest: &'a [u8],
}

impl<'a> Entries<'a> {
    pub(crate) fn of(vocabulary: &'a [u8], bytes: &'a [u8]) -> Entries<'a> {
        Entries {
            vocabulary,
            rest: bytes,
        }
    }

    // The sum of the entries' own sums, modulo 65,521.
    pub(crate) fn sum(self) -> usize {
        self.fold(
            0usize,
            |total, entry| total.saturating_add(usize::from(sums::sum(entry))),
        ) % 65521
    }
}

// How many bytes the pattern at the front has, which are at most 4,096: it ends where the check says that another byte follows.
fn size(vocabulary: &[u8], entries: &[u8]) -> usize {
    let front = &entries[..entries.len().min(4096)];
    match reader::check_term(vocabulary, front) {
        Err(CheckRefusal::Term(TermRefusal::Continues(end))) => end,
        _ => front.len(),
    }
}

impl<'a> Iterator for Entries<'a> {
    type Item = &'a [u8];

    ghost remaining = { λ s. at_most (length s.rest.now) };

    fn next(&mut self) -> Option<&'a [u8]> {
        if self.rest.is_empty() {
            return None;
        }
        let end = size(self.vocabulary, self.rest).clamp(1, self.rest.len());
        let (entry, rest) = self.rest.split_at(end);
        self.rest = rest;
        Some(entry)
    }
}
