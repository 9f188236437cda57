// What the desk says of each kind without complete situations, and prints for all patterns of a kind together, kind by kind.
#![tactic(auto)]

ghost use Rattle.std.specs.Prelude.{◌≡◌, ◌≤◌, take};
ghost use Rattle.tails.specs.Tails.{PutsKind, PutsTails};

use clauses::Glossary;
use pages::Page;
use wording::Tables;

// The bytes of a book, whose number is n; none where there are fewer.
fn front(bytes: &[u8; 262145], n: usize) -> &[u8]
    ensures { n ≤ 262145 → result.now ≡ take n bytes.now }
{
    bytes.get(..n).unwrap_or(&[])
}

// Puts what is said of kind s, and what is printed for all patterns of it together. Their book is written to the lent bytes.
fn put_kind(
    glossary: &Glossary<'_>,
    from: usize,
    kinds: &[u16; 16],
    k: usize,
    places: &[u8; 96],
    vocabulary: &[u8],
    m: usize,
    s: usize,
    book: &mut [u8; 262145],
    page: &mut Page,
)
    ensures { PutsKind glossary.now.text.now from kinds.now k glossary.now.words.now glossary.now.n glossary.now.records.now places.now vocabulary.now m s page.old.bytes page.old.end page.new.bytes page.new.end }
{
    notes::put_note(glossary.text, kinds, vocabulary, s, page);
    let gathered = gatherings::gather(glossary, from, kinds, k, m, s, book);
    let words = glossary.words;
    let tables = Tables {
        text: glossary.text,
        kinds,
        words,
        places,
        variables: &[],
    };
    together::put_together(
        &tables,
        vocabulary,
        s,
        gathered.count,
        front(book, gathered.size),
        page,
    );
}

// Puts what is said of each kind and printed for its patterns together, behind what the page holds. The m paragraphs stand from an
// offset of the text on, and the tables are those of their vocabulary; where they are others, nothing is promised.
pub fn put_tails(
    glossary: &Glossary<'_>,
    from: usize,
    kinds: &[u16; 16],
    k: usize,
    places: &[u8; 96],
    vocabulary: &[u8],
    m: usize,
    page: &mut Page,
)
    ensures { PutsTails glossary.now.text.now from kinds.now k glossary.now.words.now glossary.now.n glossary.now.records.now places.now vocabulary.now m page.old.bytes page.old.end page.new.bytes page.new.end }
{
    let mut book = [0u8; 262145];
    for s in 0..k {
        put_kind(
            glossary, from, kinds, k, places, vocabulary, m, s, &mut book, page,
        );
    }
}
