// What the desk prints for a pattern: the pattern as it was read, and its leftovers in words.
#![tactic(auto)]

ghost use Rattle.wire.specs.Row.{write_row};
ghost use Rattle.wire.specs.EntryCut.{cut_entries};
ghost use Rattle.texts.specs.Lexemes.{token_at};
ghost use Rattle.texts.specs.Answers.{too_many_text};
ghost use Rattle.texts.specs.Answering.{label_text, leftover_line_by, leftovers_by, listed_by, block_by};
ghost use Rattle.complement.specs.Answers.{list_numbers};
ghost use Rattle.pages.specs.Pages.{Puts};
ghost use Rattle.wording.specs.Tables.{tables_of};

use complement::ListRefusal;
use pages::Page;
use sizes::Size;
use wording::Tables;

// Puts a label with the colon behind it; at the text's end there is none.
fn put_label(text: &[u8], label: usize, page: &mut Page)
    ensures { Puts page.old page.new (label_text (token_at text.now label)) }
{
    if label < text.len() {
        wording::put_token(text, label, page);
        page.put(b": ");
    }
}

// Puts an entry in words, on a line of its own.
fn put_line(entry: &[u8], tables: &Tables, page: &mut Page)
    ensures { Puts page.old page.new (leftover_line_by (tables_of tables.now) entry.now) }
{
    tables.write_phrase(entry, page);
    page.put(b"\n");
}

// Puts a line for each of the n entries that stand at the front of a listing.
fn put_lines(listing: &[u8], n: u64, tables: &Tables, page: &mut Page)
    ensures { Puts page.old page.new (write_row (leftover_line_by (tables_of tables.now)) (cut_entries n listing.now)) }
{
    let mut rest = listing;
    for _i in 0..n {
        let (entry, behind) = rest.split_at(extents::entry_size(rest));
        put_line(entry, tables, page);
        rest = behind;
    }
}

// Puts the number of leftovers, a line for each, and the closing line.
pub fn put_leftovers(listing: &[u8], n: u64, tables: &Tables, page: &mut Page)
    ensures { Puts page.old page.new (leftovers_by (tables_of tables.now) n listing.now) }
{
    page.put(b"# ");
    page.put_number(n);
    page.put(b" leftovers:\n");
    put_lines(listing, n, tables, page);
    page.put(b"# end of ");
    page.put_number(n);
    page.put(b" leftovers\n");
}

// Puts what is said where the list of leftovers has n bytes, which are too many.
fn put_too_many(n: u64, page: &mut Page)
    ensures { Puts page.old page.new (too_many_text n) }
{
    page.put(b"leftovers not listed, as the list has ");
    page.put_number(n);
    page.put(b" bytes and 65536 are the most\n");
}

// Puts the text for an answer of list, with the entries in the lent slice.
fn put_answer(answer: Result<Size, ListRefusal>, listing: &[u8], tables: &Tables, page: &mut Page)
    ensures { Puts page.old page.new (listed_by (tables_of tables.now) (list_numbers answer) listing.now) }
{
    let said = numbers::list_numbers(answer);
    if said[0] == 0 {
        put_leftovers(listing, said[1], tables, page);
    } else {
        put_too_many(said[2], page);
    }
}

// Puts what is printed for a pattern: it, its label before it, and its leftovers under the vocabulary.
pub fn put_block(tables: &Tables, label: usize, vocabulary: &[u8], pattern: &[u8], page: &mut Page)
    ensures { Puts page.old page.new (block_by (tables_of tables.now) (token_at tables.now.text.now label) vocabulary.now pattern.now) }
{
    // The space stands first: if it were made behind the puts, the compiled program would clear it twice.
    let mut space = [0u8; 65536];
    page.put(b"# ");
    put_label(tables.text, label, page);
    tables.write_phrase(pattern, page);
    page.put(b"\n");
    let answer = complement::list(vocabulary, pattern, &mut space);
    put_answer(answer, &space, tables, page);
    page.put(b"\n");
}
