// Document 01's check of a term, and the reading of several inputs under one loading of a vocabulary.
#![tactic(auto)]

ghost use Rattle.std.specs.Prelude.{◌≡◌};
ghost use Rattle.wire.specs.Checking.{TermPromise};
ghost use Rattle.wire.specs.CheckComputed.{term_reply};
ghost use Rattle.reader.specs.Answers.{term_numbers};
ghost use Rattle.reader.specs.Books.{BookRead};
ghost use Rattle.reader.specs.Loaded.{PatternLoaded};
ghost use Rattle.reader.specs.Values.{PatternFilling, FillingJudged, FillingRead};
ghost use Rattle.reader.specs.Pairs.{PairRead};
ghost use Rattle.reader.specs.declared.CheckRefusal.TheVariants.{Vocabulary, Term};

use signature::VocabularyRefusal;
use words::Words;

pub mod book;
pub mod filling;
mod node;
pub mod pair;
pub mod refusal;
mod term;
pub mod whole;
mod words;

pub use book::{BookInputRefusal, BookRefusal};
pub use filling::FillingRefusal;
pub use pair::PairRefusal;
pub use refusal::TermRefusal;
pub use whole::Extent;

// An accepted term's number of words, its deepest level, whether it is complete and its first gap, which is its length where it
// is.
#[derive(Clone, Copy)]
pub struct CheckedTerm {
    pub words: usize,
    pub deepest: usize,
    pub complete: bool,
    pub gap: usize,
}

// Why a vocabulary or a term under it is refused.
#[derive(Clone, Copy)]
pub enum CheckRefusal {
    Vocabulary(VocabularyRefusal),
    Term(TermRefusal),
}

impl From<VocabularyRefusal> for CheckRefusal {
    ghost from_gives = { λ why r. r ≡ Vocabulary why };

    fn from(why: VocabularyRefusal) -> CheckRefusal {
        CheckRefusal::Vocabulary(why)
    }
}

impl From<TermRefusal> for CheckRefusal {
    ghost from_gives = { λ why r. r ≡ Term why };

    fn from(why: TermRefusal) -> CheckRefusal {
        CheckRefusal::Term(why)
    }
}

// Checks a term under a vocabulary.
pub fn check_term(vocabulary: &[u8], term: &[u8]) -> Result<CheckedTerm, CheckRefusal>
    ensures term_promise { TermPromise vocabulary.now term.now (term_numbers result) }
    ensures result_value { term_numbers result ≡ term_reply vocabulary.now term.now }
{
    let mut offsets = [0u16; 96];
    let mut results = [0u8; 96];
    let mut maps = [0u8; 96];
    signature::load(vocabulary, &mut offsets, &mut results, &mut maps)?;
    let w = Words {
        v: vocabulary,
        count: vocabulary[1] as usize,
        offsets: &offsets,
        results: &results,
        maps: &maps,
    };
    let x = whole::read(w, term)?;
    Ok(CheckedTerm {
        words: x.words,
        deepest: x.deepest,
        complete: x.complete,
        gap: x.gap,
    })
}

// Reads a vocabulary and a pattern to be listed, and leaves the table of result kinds by which listings go in the lent one.
pub fn load_pattern(
    vocabulary: &[u8],
    pattern: &[u8],
    settled: &mut [u8; 96],
) -> Result<Option<usize>, CheckRefusal>
    ensures { PatternLoaded vocabulary.now pattern.now settled.old settled.new result }
{
    let mut offsets = [0u16; 96];
    let mut results = [0u8; 96];
    let mut maps = [0u8; 96];
    let missing = signature::load_settled(
        vocabulary,
        &mut offsets,
        &mut results,
        &mut maps,
        settled,
    )?;
    let w = Words {
        v: vocabulary,
        count: vocabulary[1] as usize,
        offsets: &offsets,
        results: &results,
        maps: &maps,
    };
    whole::read(w, pattern)?;
    Ok(missing)
}

// Reads a pattern and a situation under one loading of a vocabulary: the vocabulary first, then the one, then the other. Where
// the situation is known to be the pattern with the parts that the spans give in place of its names, only the parts are read.
pub fn read_pair(
    vocabulary: &[u8],
    first: &[u8],
    second: &[u8],
    spans: &[u16; 128],
    agreed: bool,
) -> Result<(), PairRefusal>
    ensures { PairRead vocabulary.now first.now second.now spans.now agreed result }
{
    let mut offsets = [0u16; 96];
    let mut results = [0u8; 96];
    let mut maps = [0u8; 96];
    signature::load(vocabulary, &mut offsets, &mut results, &mut maps)?;
    let w = Words {
        v: vocabulary,
        count: vocabulary[1] as usize,
        offsets: &offsets,
        results: &results,
        maps: &maps,
    };
    pair::read(w, first, second, spans, agreed)
}

// Reads a pattern under an accepted vocabulary, and a filling file for it.
fn read_pattern_filling<'a>(
    w: Words<'a>,
    pattern: &[u8],
    filling: &[u8],
    starts: &mut [usize; 65],
    depths: &mut [u8; 64],
) -> Result<usize, FillingRefusal>
    ensures { PatternFilling w.entry.v.now pattern.now filling.now starts.new depths.new result }
{
    let mut names = [65535u16; 64];
    let x = whole::read_named(w, pattern, &mut names)?;
    filling::read_file(w, filling, &names, starts, depths, x.deepest)
}

// Reads a vocabulary, a pattern and a filling file for it, in this order.
fn judge_filling(
    vocabulary: &[u8],
    pattern: &[u8],
    filling: &[u8],
    starts: &mut [usize; 65],
    depths: &mut [u8; 64],
) -> Result<usize, FillingRefusal>
    ensures { FillingJudged vocabulary.now pattern.now filling.now starts.new depths.new result }
{
    let mut offsets = [0u16; 96];
    let mut results = [0u8; 96];
    let mut maps = [0u8; 96];
    signature::load(vocabulary, &mut offsets, &mut results, &mut maps)?;
    let w = Words {
        v: vocabulary,
        count: vocabulary[1] as usize,
        offsets: &offsets,
        results: &results,
        maps: &maps,
    };
    read_pattern_filling(w, pattern, filling, starts, depths)
}

// Reads a vocabulary, a pattern and a filling file for it, in this order. Where all are in order the answer tells the
// pattern's deepest level, and the tables tell where the value of each name begins and ends in the file, and how many levels
// it has; after any other answer they are blank.
pub fn read_filling(
    vocabulary: &[u8],
    pattern: &[u8],
    filling: &[u8],
    starts: &mut [usize; 65],
    depths: &mut [u8; 64],
) -> Result<usize, FillingRefusal>
    ensures { FillingRead vocabulary.now pattern.now filling.now starts.new depths.new result }
{
    let read = judge_filling(vocabulary, pattern, filling, starts, depths);
    if read.is_err() {
        *starts = [0usize; 65];
        *depths = [0u8; 64];
    }
    read
}

// Reads a vocabulary and a book under it, and leaves the table of result kinds by which listings go in the lent one.
pub fn read_book(
    vocabulary: &[u8],
    book: &[u8],
    settled: &mut [u8; 96],
) -> Result<Option<usize>, BookInputRefusal>
    ensures { BookRead vocabulary.now book.now settled.old settled.new result }
{
    let mut offsets = [0u16; 96];
    let mut results = [0u8; 96];
    let mut maps = [0u8; 96];
    let missing = signature::load_settled(
        vocabulary,
        &mut offsets,
        &mut results,
        &mut maps,
        settled,
    )?;
    let w = Words {
        v: vocabulary,
        count: vocabulary[1] as usize,
        offsets: &offsets,
        results: &results,
        maps: &maps,
    };
    book::read(w, book)?;
    Ok(missing)
}
