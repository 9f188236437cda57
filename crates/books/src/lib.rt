// Document 02's call list_book: the leftovers of a whole book.
#![tactic(auto)]

ghost use Rattle.std.specs.Prelude.{◌≡◌, ◌≤◌, length};
ghost use Rattle.wire.specs.BookLeftovers.{most_listed, BookPromise};
ghost use Rattle.books.specs.Turning.{turn_numbers, BookAt, ReadAt, ListsIn};
ghost use Rattle.books.specs.Calls.{ListsBook};
ghost use Rattle.books.specs.Answers.{input_refusal_of, turn_refusal_of, book_list_numbers};

mod turns;

use crate::turns::{Tables, TurnRefusal};
use reader::{BookInputRefusal, BookRefusal};
use signature::VocabularyRefusal;
use sizes::Size;

// Why there is no listing: document 01, lines 1 to 5 and 7 to 15, 18 and 20, and document 02, lines 24 to 26.
#[derive(Clone, Copy)]
pub enum BookListRefusal {
    Vocabulary(VocabularyRefusal),
    Book(BookRefusal),
    TooLarge(usize),
    NoRoom(usize),
}

impl From<BookInputRefusal> for BookListRefusal {
    ghost from_gives = { λ why r. r ≡ input_refusal_of why };

    fn from(why: BookInputRefusal) -> BookListRefusal {
        match why {
            BookInputRefusal::Vocabulary(why) => BookListRefusal::Vocabulary(why),
            BookInputRefusal::Book(why) => BookListRefusal::Book(why),
        }
    }
}

impl From<TurnRefusal> for BookListRefusal {
    ghost from_gives = { λ why r. r ≡ turn_refusal_of why };

    fn from(why: TurnRefusal) -> BookListRefusal {
        match why {
            TurnRefusal::NoRoom(bytes) => BookListRefusal::NoRoom(bytes),
            TurnRefusal::Past(i) => BookListRefusal::TooLarge(i),
        }
    }
}

// Lists a short book by small areas, which are sooner set up.
fn list_small(book: &[u8], tables: Tables<'_>, out: &mut [u8]) -> Result<Size, TurnRefusal>
    requires read_at { ReadAt book.now tables.siblings.now tables.settled.now tables.words tables.missing }
    requires book_len_bound { length book.now ≤ 256 }
    ensures { ListsIn book.now tables.entry.siblings.now tables.entry.settled.now tables.entry.words tables.entry.missing 1024 out.old out.new result }
{
    let mut near = [0u8; 1024];
    let mut far = [0u8; 1024];
    let mut copy = [0u8; 1280];
    let mut marks = [0u32; 256];
    turns::list_in(
        book, tables, &mut near, &mut far, &mut copy, &mut marks, out,
    )
}

// Lists a book by areas as large as the entries may be.
fn list_large(book: &[u8], tables: Tables<'_>, out: &mut [u8]) -> Result<Size, TurnRefusal>
    requires { ReadAt book.now tables.siblings.now tables.settled.now tables.words tables.missing }
    ensures { ListsIn book.now tables.entry.siblings.now tables.entry.settled.now tables.entry.words tables.entry.missing most_listed out.old out.new result }
{
    let mut near = [0u8; 32768];
    let mut far = [0u8; 32768];
    let mut copy = [0u8; 8192];
    let mut marks = [0u32; 4096];
    turns::list_in(
        book, tables, &mut near, &mut far, &mut copy, &mut marks, out,
    )
}

// The listing of a book that is accepted. Most are short, and their entries few.
fn list_read(
    book: &[u8],
    words: usize,
    settled: &[u8; 96],
    missing: Option<usize>,
    out: &mut [u8],
) -> Result<Size, TurnRefusal>
    requires { BookAt book.now words settled.now missing }
    ensures { ListsBook book.now words settled.now missing out.old out.new (turn_numbers result) }
{
    let siblings = kinds::siblings(words, settled);
    let tables = Tables {
        siblings: &siblings,
        settled,
        words,
        missing,
    };
    if 256 < book.len() {
        return list_large(book, tables, out);
    }
    match list_small(book, tables, out) {
        Ok(size) => Ok(size),
        Err(TurnRefusal::NoRoom(bytes)) => Err(TurnRefusal::NoRoom(bytes)),
        Err(TurnRefusal::Past(_)) => list_large(book, tables, out),
    }
}

// Writes the leftovers of a book into the lent slice, one directly behind the other in an order that is not promised, and says
// how many entries and bytes they are. A refusal leaves the slice as it was.
pub fn list_book(vocabulary: &[u8], book: &[u8], out: &mut [u8]) -> Result<Size, BookListRefusal>
    ensures { BookPromise vocabulary.now book.now out.old out.new (book_list_numbers result) }
{
    let mut settled = [0u8; 96];
    let missing = reader::read_book(vocabulary, book, &mut settled)?;
    let size = list_read(book, vocabulary[1] as usize, &settled, missing, out)?;
    Ok(size)
}
