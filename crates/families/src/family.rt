// The matcher and the second matcher compared over families: all accepted patterns and all situations of a
// kind that have up to so many tokens, each pattern with each situation. A token is a word with its written
// map, a name, or 255. An alphabet has two bytes a token; a name and 255 are the first of them alone.
ghost use Rattle.std.specs.Prelude.{◌≤◌};

use crate::addresses;
use matcher::MatchRefusal;
use std::io;
use std::ops::Add;

// What match's table holds everywhere before it is lent.
const LENT: u16 = 60000;

// What a family came to: how many yes, no and differences, and of all the tables that a yes filled the sum of
// the offsets and the sum of the lengths.
#[derive(Clone, Copy, Default)]
struct Tally {
    yes: usize,
    no: usize,
    differences: usize,
    offsets: usize,
    lengths: usize,
}

impl Add for Tally {
    type Output = Tally;

    fn add(self, other: Tally) -> Tally {
        Tally {
            yes: self.yes.saturating_add(other.yes),
            no: self.no.saturating_add(other.no),
            differences: self.differences.saturating_add(other.differences),
            offsets: self.offsets.saturating_add(other.offsets),
            lengths: self.lengths.saturating_add(other.lengths),
        }
    }
}

impl Tally {
    // Counts a pair on which both matchers say yes, with the spans that match's table has.
    fn with_spans(table: &[u16; 128]) -> Tally {
        let (spans, _) = table.as_chunks::<2>();
        spans.iter().fold(
            Tally {
                yes: 1,
                ..Tally::default()
            },
            |tally, span| tally.and_span(span),
        )
    }

    fn and_span(self, span: &[u16; 2]) -> Tally {
        let [offset, length] = *span;
        Tally {
            offsets: self.offsets.saturating_add(usize::from(offset)),
            lengths: self.lengths.saturating_add(usize::from(length)),
            ..self
        }
    }
}

// The bytes of a term that has at most 16.
#[derive(Clone, Copy)]
struct Term {
    bytes: [u8; 16],
    len: usize,
    ghost within: { len ≤ 16 },
}

impl Term {
    fn bytes(&self) -> &[u8] {
        &self.bytes[..self.len]
    }

    // Adds a token, if there is room for two bytes more.
    fn push(&mut self, token: [u8; 2]) {
        if self.len <= 14 {
            let [first, map] = token;
            let n = self.len;
            self.bytes[n] = first;
            self.bytes[n + 1] = map;
            self.len = n + size(first);
        }
    }
}

// How many bytes the token that begins with a byte has.
fn size(first: u8) -> usize
    ensures { result ≤ 2 }
{
    if 127 < first { 1 } else { 2 }
}

// The tokens of which a family's terms are made, and the most of them that a term has.
#[derive(Clone, Copy)]
pub(crate) struct Terms<'a> {
    pub(crate) kind: u8,
    pub(crate) alphabet: &'a [u8],
    pub(crate) most: u32,
}

impl<'a> Terms<'a> {
    // How many rows of up to so many tokens there are.
    fn rows(&self) -> usize {
        let (tokens, _) = self.alphabet.as_chunks::<2>();
        (0..self.most).fold(
            0usize,
            |rows, _| rows.saturating_add(1).saturating_mul(tokens.len()),
        )
    }

    // A kind, and behind it the tokens that the digits of a number stand for, the lowest first: digit 1 is for the
    // first token of the alphabet, and there is no digit 0, so each row of tokens has one number from 1 on.
    // Kept: an iterator over a number's digits would be a type of its own for this one loop, and no plainer.
    fn spelled(&self, number: usize) -> Term {
        let (tokens, _) = self.alphabet.as_chunks::<2>();
        let mut term = Term {
            bytes: [self.kind; 16],
            len: 1,
        };
        let mut rest = number;
        while 0 < rest && 0 < tokens.len() {
            term.push(tokens[(rest - 1) % tokens.len()]);
            rest = (rest - 1) / tokens.len();
        }
        term
    }
}

// Whether a term is accepted.
fn accepted(vocabulary: &[u8], term: &[u8]) -> bool {
    reader::check_term(vocabulary, term).is_ok()
}

// How many of the terms are accepted.
fn count(vocabulary: &[u8], terms: Terms) -> usize {
    (1..=terms.rows())
        .filter(|number| accepted(vocabulary, terms.spelled(*number).bytes()))
        .count()
}

fn same_answer(answer: Result<bool, MatchRefusal>, fits: bool) -> bool {
    match answer {
        Ok(yes) => yes == fits,
        Err(_) => false,
    }
}

// Whether match's table is as the second matcher has it: a no leaves what was lent.
fn same_table(p: &[u8], s: &[u8], fits: bool, table: &[u16; 128]) -> bool {
    if !fits {
        return table.iter().all(|entry| *entry == LENT);
    }
    let (spans, _) = table.as_chunks::<2>();
    spans.iter().zip(128..192).all(|(span, name)| (usize::from(span[0]), usize::from(span[1]))
        == addresses::span(p, s, name))
}

// Asks both matchers. They differ where one says yes and the other does not, or an entry of the table differs.
fn compare(vocabulary: &[u8], p: &[u8], s: &[u8]) -> Tally {
    let mut table = [LENT; 128];
    let answer = matcher::match_pattern(vocabulary, p, s, &mut table);
    let fits = addresses::fits(p, s);
    if !same_answer(answer, fits) || !same_table(p, s, fits, &table) {
        return Tally {
            differences: 1,
            ..Tally::default()
        };
    }
    if fits {
        return Tally::with_spans(&table);
    }
    Tally {
        no: 1,
        ..Tally::default()
    }
}

// A family: its patterns, and its situations, whose maps are the words' place maps.
#[derive(Clone, Copy)]
pub(crate) struct Family<'a> {
    pub(crate) label: &'a str,
    pub(crate) vocabulary: &'a [u8],
    pub(crate) patterns: Terms<'a>,
    pub(crate) situations: Terms<'a>,
}

impl<'a> Family<'a> {
    // Compares on a pattern, if it is accepted, with each accepted situation.
    fn compare_each(&self, pattern: Term) -> Tally {
        if !accepted(self.vocabulary, pattern.bytes()) {
            return Tally::default();
        }
        (1..=self.situations.rows())
            .map(|number| self.situations.spelled(number))
            .filter(|situation| accepted(self.vocabulary, situation.bytes()))
            .fold(Tally::default(), |tally, situation| {
                tally + compare(self.vocabulary, pattern.bytes(), situation.bytes())
            })
    }

    // Compares on each pattern.
    fn compare_all(&self) -> Tally {
        (1..=self.patterns.rows())
            .map(|number| self.patterns.spelled(number))
            .fold(
                Tally::default(),
                |tally, pattern| tally + self.compare_each(pattern),
            )
    }

    // Runs the family and prints its line.
    pub(crate) fn run(&self, rt: &impl Print) -> io::Result<()> {
        let label = self.label;
        let patterns = count(self.vocabulary, self.patterns);
        let situations = count(self.vocabulary, self.situations);
        print!(rt; "family, {label}: {patterns} patterns, {situations} situations, ")?;
        let Tally {
            yes,
            no,
            differences,
            offsets,
            lengths,
        } = self.compare_all();
        let cases = yes.saturating_add(no).saturating_add(differences);
        print!(rt; "{cases} cases, {yes} yes, {no} no, {differences} differences, ")?;
        println!(rt; "offsets {offsets}, lengths {lengths}")
    }
}
