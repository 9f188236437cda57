// The numbers of the papers' replies. Accepted: 0 and the values, 0 where there is none. Refused: number, input
// and place, and 0 behind them.
#![tactic(auto)]

ghost use Rattle.std.specs.Prelude.{◌≡◌, [], ◌∷◌};
ghost use Rattle.wire.specs.Reply.{accepted as Reply·accepted, refused as Reply·refused};
ghost use Rattle.wire.specs.Map.{bit};
ghost use Rattle.signature.specs.Answers.{vocabulary_refused, vocabulary_numbers};
ghost use Rattle.reader.specs.Answers.{term_refused_at, term_numbers, filling_refused, book_refused};
ghost use Rattle.inputs.specs.Answers.{inputs_refused};
ghost use Rattle.matcher.specs.Answers.{match_numbers};
ghost use Rattle.complement.specs.Answers.{list_numbers};
ghost use Rattle.books.specs.Answers.{book_list_numbers};
ghost use Rattle.filler.specs.Answers.{fill_numbers};
ghost use Rattle.numbers.specs.Numbers.{reply_numbers};

use books::BookListRefusal;
use complement::ListRefusal;
use filler::FillRefusal;
use inputs::InputsRefusal;
use matcher::MatchRefusal;
use reader::{BookRefusal, CheckRefusal, CheckedTerm, FillingRefusal, TermRefusal};
use signature::VocabularyRefusal;
use sizes::Size;

// How many they are stands here, in `accepted`, `accepted_term` and `refused`, and in `reply_numbers`.
// Kept: the exported calls write this array for C, so it is no struct of its own, and each answer has a function in place of a From.
pub type Numbers = [u64; 5];

// The numbers of a reply that accepts, with its values, of which it has up to two.
pub fn accepted(one: u64, other: u64) -> Numbers
    ensures { result ≡ reply_numbers (Reply·accepted (one ∷ other ∷ [])) }
{
    [0, one, other, 0, 0]
}

// The numbers of a reply that accepts a term: 1 stands for complete.
fn accepted_term(words: u64, deepest: u64, complete: bool, gap: u64) -> Numbers
    ensures { result ≡ reply_numbers (Reply·accepted (words ∷ deepest ∷ bit complete ∷ gap ∷ [])) }
{
    [0, words, deepest, u64::from(complete), gap]
}

// The numbers of a reply that refuses.
fn refused(number: u64, input: u64, place: u64) -> Numbers
    ensures { result ≡ reply_numbers (Reply·refused number input place) }
{
    [number, input, place, 0, 0]
}

// Lines 1 to 5.
fn vocabulary_refused(why: VocabularyRefusal) -> Numbers
    ensures { result ≡ reply_numbers (vocabulary_refused why) }
{
    match why {
        VocabularyRefusal::Head => refused(1, 0, 0),
        VocabularyRefusal::WordCount => refused(2, 0, 1),
        VocabularyRefusal::Ends(q) => refused(3, 0, q as u64),
        VocabularyRefusal::NoSuchKind(q) => refused(4, 0, q as u64),
        VocabularyRefusal::Continues(q) => refused(5, 0, q as u64),
    }
}

// Lines 7 to 15, of the given input, in which the term begins at an offset.
fn term_refused(input: u64, at: u64, why: TermRefusal) -> Numbers
    ensures { result ≡ reply_numbers (term_refused_at input at why) }
{
    match why {
        TermRefusal::Size => refused(7, input, at),
        TermRefusal::NoSuchKind => refused(8, input, at),
        TermRefusal::Ends(q) => refused(9, input, q as u64),
        TermRefusal::TooDeep(q) => refused(10, input, q as u64),
        TermRefusal::NoWordOrName(q) => refused(11, input, q as u64),
        TermRefusal::WrongKind(q) => refused(12, input, q as u64),
        TermRefusal::Clashes(q) => refused(13, input, q as u64),
        TermRefusal::StrayBit(q) => refused(14, input, q as u64),
        TermRefusal::Continues(q) => refused(15, input, q as u64),
    }
}

// Lines 1 to 5 and 7 to 17.
fn inputs_refused(why: InputsRefusal) -> Numbers
    ensures { result ≡ reply_numbers (inputs_refused why) }
{
    match why {
        InputsRefusal::Vocabulary(why) => vocabulary_refused(why),
        InputsRefusal::Pattern(why) => term_refused(1, 0, why),
        InputsRefusal::Situation(why) => term_refused(2, 0, why),
        InputsRefusal::Incomplete(q) => refused(16, 2, q as u64),
        InputsRefusal::KindsDiffer => refused(17, 2, 0),
    }
}

// Lines 1 to 5 and 7 to 15, 21 and 22.
fn filling_refused(why: FillingRefusal) -> Numbers
    ensures { result ≡ reply_numbers (filling_refused why) }
{
    match why {
        FillingRefusal::Vocabulary(why) => vocabulary_refused(why),
        FillingRefusal::Pattern(why) => term_refused(1, 0, why),
        FillingRefusal::Names(n) => refused(21, 4, n as u64),
        FillingRefusal::Value(q) => refused(22, 4, q as u64),
    }
}

// Lines 7 to 15, 18, 24 and 25 of a book.
fn book_refused(why: BookRefusal) -> Numbers
    ensures { result ≡ reply_numbers (book_refused why) }
{
    match why {
        BookRefusal::Count => refused(24, 5, 0),
        BookRefusal::Pattern(at, why) => term_refused(5, at as u64, why),
        BookRefusal::Repeated(q) => refused(18, 5, q as u64),
        BookRefusal::OtherKind(q) => refused(25, 5, q as u64),
        BookRefusal::Continues(q) => refused(15, 5, q as u64),
    }
}

// No values.
pub fn vocabulary_numbers(answer: Result<(), VocabularyRefusal>) -> Numbers
    ensures { result ≡ reply_numbers (vocabulary_numbers answer) }
{
    match answer {
        Ok(()) => accepted(0, 0),
        Err(why) => vocabulary_refused(why),
    }
}

// The values are the number of words, the deepest level, 1 if the term is complete and 0 if not, and the gap.
pub fn term_numbers(answer: Result<CheckedTerm, CheckRefusal>) -> Numbers
    ensures { result ≡ reply_numbers (term_numbers answer) }
{
    match answer {
        Ok(x) => accepted_term(x.words as u64, x.deepest as u64, x.complete, x.gap as u64),
        Err(CheckRefusal::Vocabulary(why)) => vocabulary_refused(why),
        Err(CheckRefusal::Term(why)) => term_refused(1, 0, why),
    }
}

// The value is 1 for yes and 0 for no.
pub fn match_numbers(answer: Result<bool, MatchRefusal>) -> Numbers
    ensures { result ≡ reply_numbers (match_numbers answer) }
{
    match answer {
        Ok(true) => accepted(1, 0),
        Ok(false) => accepted(0, 0),
        Err(MatchRefusal::Inputs(why)) => inputs_refused(why),
        Err(MatchRefusal::TableLength) => refused(19, 3, 0),
    }
}

// The values are the number of entries and of bytes.
pub fn list_numbers(answer: Result<Size, ListRefusal>) -> Numbers
    ensures { result ≡ reply_numbers (list_numbers answer) }
{
    match answer {
        Ok(size) => accepted(size.entries as u64, size.bytes as u64),
        Err(ListRefusal::Vocabulary(why)) => vocabulary_refused(why),
        Err(ListRefusal::Pattern(why)) => term_refused(1, 0, why),
        Err(ListRefusal::Repeated(q)) => refused(18, 1, q as u64),
        Err(ListRefusal::NoRoom(bytes)) => refused(20, 3, bytes as u64),
    }
}

// The values are the number of entries and of bytes.
pub fn book_numbers(answer: Result<Size, BookListRefusal>) -> Numbers
    ensures { result ≡ reply_numbers (book_list_numbers answer) }
{
    match answer {
        Ok(listed) => accepted(listed.entries as u64, listed.bytes as u64),
        Err(BookListRefusal::Vocabulary(why)) => vocabulary_refused(why),
        Err(BookListRefusal::Book(why)) => book_refused(why),
        Err(BookListRefusal::TooLarge(i)) => refused(26, 5, i as u64),
        Err(BookListRefusal::NoRoom(bytes)) => refused(20, 3, bytes as u64),
    }
}

// The value is the result's length.
pub fn fill_numbers(answer: Result<usize, FillRefusal>) -> Numbers
    ensures { result ≡ reply_numbers (fill_numbers answer) }
{
    match answer {
        Ok(bytes) => accepted(bytes as u64, 0),
        Err(FillRefusal::Inputs(why)) => filling_refused(why),
        Err(FillRefusal::TooLarge) => refused(23, 4, 0),
        Err(FillRefusal::NoRoom(bytes)) => refused(20, 3, bytes as u64),
    }
}
