// Document 02's book: a count, and as many patterns of one kind, one behind the other.
ghost use Rattle.std.specs.Prelude.{◌≡◌, ◌+◌, ◌<◌, ◌≤◌, min, length};
ghost use Rattle.signature.specs.Tables.{vocabulary_in};
ghost use Rattle.reader.specs.Nodes.{place_of};
ghost use Rattle.reader.specs.Books.{patterns_numbers, Counted, in_window, placed_at, PatternJudged, PatternRead, book_reply};
ghost use Rattle.reader.specs.declared.book.BookInputRefusal.TheVariants.{Vocabulary, Book};

use crate::refusal::TermRefusal;
use crate::whole;
use crate::words::Words;
use signature::VocabularyRefusal;

// Why a book is refused: document 02's 24; where a pattern begins and why it is refused, by document 01's lines 7 to 14; 18, 25
// and 15. Places are those in the book.
#[derive(Clone, Copy)]
pub enum BookRefusal {
    Count,
    Pattern(usize, TermRefusal),
    Repeated(usize),
    OtherKind(usize),
    Continues(usize),
}

// Why a vocabulary or a book under it is refused.
#[derive(Clone, Copy)]
pub enum BookInputRefusal {
    Vocabulary(VocabularyRefusal),
    Book(BookRefusal),
}

impl From<VocabularyRefusal> for BookInputRefusal {
    ghost from_gives = { λ why r. r ≡ Vocabulary why };

    fn from(why: VocabularyRefusal) -> BookInputRefusal {
        BookInputRefusal::Vocabulary(why)
    }
}

impl From<BookRefusal> for BookInputRefusal {
    ghost from_gives = { λ why r. r ≡ Book why };

    fn from(why: BookRefusal) -> BookInputRefusal {
        BookInputRefusal::Book(why)
    }
}

// How many patterns a book has, nothing where that is missing, 0 or more than 64.
fn count(b: &[u8]) -> Option<u8>
    ensures { Counted b.now result }
{
    match b.first() {
        Some(&n) if 0 < n && n <= 64 => Some(n),
        _ => None,
    }
}

// Why a pattern is refused of which 4,096 bytes are looked at, where so many are left: if one is due behind them it is too long.
fn in_window(why: TermRefusal, left: usize) -> TermRefusal
    ensures { result ≡ in_window left why }
{
    match why {
        TermRefusal::Ends(_) if 4096 <= left => TermRefusal::Size,
        _ => why,
    }
}

// The same with places in a book, where the pattern begins at an offset.
fn placed(why: TermRefusal, at: usize) -> TermRefusal
    requires { at + place_of why < 18446744073709551616 }
    ensures { result ≡ placed_at at why }
{
    match why {
        TermRefusal::Size => TermRefusal::Size,
        TermRefusal::NoSuchKind => TermRefusal::NoSuchKind,
        TermRefusal::Ends(q) => TermRefusal::Ends(at + q),
        TermRefusal::TooDeep(q) => TermRefusal::TooDeep(at + q),
        TermRefusal::NoWordOrName(q) => TermRefusal::NoWordOrName(at + q),
        TermRefusal::WrongKind(q) => TermRefusal::WrongKind(at + q),
        TermRefusal::Clashes(q) => TermRefusal::Clashes(at + q),
        TermRefusal::StrayBit(q) => TermRefusal::StrayBit(at + q),
        TermRefusal::Continues(q) => TermRefusal::Continues(at + q),
    }
}

// Sees that no name stands twice in the pattern between two offsets of a book, and that its kind is the first one's.
fn judge_pattern(b: &[u8], at: usize, end: usize, words: usize) -> Result<usize, BookRefusal>
    requires { (at + 2 ≤ length b.now) × (at ≤ end) × (end ≤ length b.now) }
    ensures { PatternJudged b.now at end words result }
{
    if let Some(q) = repeats::first_repeat(&b[at..end], words) {
        return Err(BookRefusal::Repeated(at + q));
    }
    if b[at] != b[1] {
        return Err(BookRefusal::OtherKind(at));
    }
    Ok(end)
}

// Reads the pattern at an offset of a book, of which at most 4,096 bytes are looked at.
fn read_pattern<'a>(w: Words<'a>, b: &[u8], at: usize) -> Result<usize, BookRefusal>
    requires { at ≤ length b.now }
    ensures { PatternRead (vocabulary_in w.entry.v.now) b.now at result }
{
    let limit = b.len().min(at + 4096);
    let mut names = [65535u16; 64];
    match whole::read_front(w, &b[at..limit], &mut names) {
        Err(why) => Err(BookRefusal::Pattern(at, placed(in_window(why, b.len() - at), at))),
        Ok(c) => {
            let n = c.at;
            judge_pattern(b, at, at + n, w.count)
        }
    }
}

// Reads a book under an accepted vocabulary.
pub(crate) fn read<'a>(w: Words<'a>, b: &[u8]) -> Result<(), BookRefusal>
    ensures { patterns_numbers result ≡ book_reply (vocabulary_in w.entry.v.now) b.now }
{
    let Some(patterns) = count(b) else {
        return Err(BookRefusal::Count);
    };
    let mut at = 1usize;
    for _i in 0..patterns {
        at = read_pattern(w, b, at)?;
    }
    if at < b.len() {
        return Err(BookRefusal::Continues(at));
    }
    Ok(())
}
