// What the desk prints for a text that is in order: its paragraphs, what stands behind them, and the last line.
#![tactic(auto)]

ghost use Rattle.std.specs.Prelude.{◌≡◌};
ghost use Rattle.paragraphs.specs.Paragraphs.{places_table};
ghost use Rattle.files.specs.Puts.{PutsFile};

use clauses::Glossary;
use pages::Page;

// How many places each word has.
fn places_of(records: &[u8; 960]) -> [u8; 96]
    ensures { result ≡ places_table records.now }
{
    let mut places = [0u8; 96];
    for (f, place) in places.iter_mut().enumerate() {
        *place = records[10 * f + 1];
    }
    places
}

// Puts the answer for a text of m paragraphs, which stand from an offset of the text on; the tables are those of their vocabulary. Where
// they are others, nothing is promised.
pub fn put_file(
    glossary: &Glossary<'_>,
    from: usize,
    kinds: &[u16; 16],
    k: usize,
    m: usize,
    page: &mut Page,
)
    ensures { PutsFile glossary.now.text.now from kinds.now k glossary.now.words.now glossary.now.n glossary.now.records.now m page.old.bytes page.old.end page.new.bytes page.new.end }
{
    let places = places_of(glossary.records);
    let mut vocabulary = [0u8; 962];
    let size = encoder::encode(k, glossary.n, glossary.records, &mut vocabulary);
    let vocabulary = &vocabulary[..size];
    paragraphs::put(glossary, from, kinds, k, &places, vocabulary, m, page);
    tails::put_tails(glossary, from, kinds, k, &places, vocabulary, m, page);
    page.put(b"# end of ");
    page.put_number(m as u64);
    page.put(b" patterns\n");
}
