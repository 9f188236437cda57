// What the desk prints for all patterns of a kind together: the leftovers of their book in words.
#![tactic(auto)]

ghost use Rattle.pages.specs.Pages.{Puts};
ghost use Rattle.wording.specs.Tables.{tables_of};
ghost use Rattle.together.specs.Together.{PutsTogether, together_by, many_by, past_by, listed_by};

use pages::Page;
use wording::Tables;

// Puts how many patterns of which kind are taken together.
fn put_subject(tables: &Tables, s: usize, n: u64, page: &mut Page)
    ensures { Puts page.old page.new (together_by (tables_of tables.now).kinds s n) }
{
    page.put(b"all ");
    page.put_number(n);
    page.put(b" patterns of ");
    wording::put_name(tables.text, tables.kinds, s, page);
    page.put(b" together");
}

// Puts what is said of more patterns than a book may have.
fn put_many(tables: &Tables, s: usize, n: u64, page: &mut Page)
    ensures { Puts page.old page.new (many_by (tables_of tables.now).kinds s n) }
{
    page.put(b"leftovers of ");
    put_subject(tables, s, n, page);
    page.put(b" not listed, as 64 patterns are the most\n\n");
}

// Puts what is said where what is left behind pattern i, counted from 1, is too long.
fn put_past(tables: &Tables, s: usize, n: u64, i: u64, page: &mut Page)
    ensures { Puts page.old page.new (past_by (tables_of tables.now).kinds s n i) }
{
    page.put(b"leftovers of ");
    put_subject(tables, s, n, page);
    page.put(b" not listed, as behind pattern ");
    page.put_number(i);
    page.put(b" of them they have more than 32768 bytes, or one of them more than 4096\n\n");
}

// Puts the heading and the m entries that stand at the front of a listing. They have no variables.
fn put_listed(listing: &[u8], m: u64, tables: &Tables, s: usize, n: u64, page: &mut Page)
    ensures { Puts page.old page.new (listed_by (tables_of tables.now) s n m listing.now) }
{
    page.put(b"# ");
    put_subject(tables, s, n, page);
    page.put(b"\n");
    blocks::put_leftovers(listing, m, tables, page);
    page.put(b"\n");
}

// Puts what is printed for n patterns of kind s together, whose book is given, under the vocabulary. Their leftovers have no variables,
// so it does not matter which the tables have.
pub fn put_together(
    tables: &Tables,
    vocabulary: &[u8],
    s: usize,
    n: usize,
    book: &[u8],
    page: &mut Page,
)
    ensures { PutsTogether tables.now.text.now tables.now.kinds.now tables.now.words.now tables.now.places.now vocabulary.now s n book.now page.old.bytes page.old.end page.new.bytes page.new.end }
{
    if n < 2 {
        return;
    }
    if 64 < n {
        put_many(tables, s, n as u64, page);
        return;
    }
    let mut space = [0u8; 32768];
    let said = numbers::book_numbers(books::list_book(vocabulary, book, &mut space));
    if said[0] == 0 {
        put_listed(&space, said[1], tables, s, n as u64, page);
    } else {
        put_past(tables, s, n as u64, said[2].wrapping_add(1), page);
    }
}
