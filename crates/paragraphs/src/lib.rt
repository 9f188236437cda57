// The paragraphs of a text: how many there are, and what is printed for each: the leftovers of its pattern, and the answers to what it
// is asked.
#![tactic(auto)]

ghost use Rattle.std.specs.Prelude.{◌≡◌, true, false, List, ◌≤◌, length, take};
ghost use Rattle.gatherings.specs.Courses.{Readable};
ghost use Rattle.paragraphs.specs.Paragraphs.{Checks, ReadsParagraph, PutsPhrase, BehindAsking, PutsQuestions, PutsParagraph, PutsBlocks};

use clauses::Glossary;
use faults::Fault;
use pages::Page;
use wording::Tables;

// A pattern for which its block was put: the offset of its label, or the text's length where it has none, its kind, and the offset
// behind it.
#[derive(Clone, Copy)]
struct Head {
    label: usize,
    kind: usize,
    at: usize,
}

// Reads a paragraph, and writes nothing.
fn read_paragraph(
    glossary: &Glossary<'_>,
    at: usize,
    kinds: &[u16; 16],
    k: usize,
) -> Result<usize, Fault>
    requires { Readable glossary.now.text.now at k glossary.now.n }
    ensures { ReadsParagraph glossary.now.text.now at kinds.now k glossary.now.words.now glossary.now.n glossary.now.records.now result }
{
    let mut out = [0u8; 4096];
    let mut variables = [0u16; 64];
    let p = phrases::read_phrase(glossary, at, kinds, k, &mut out, &mut variables)?;
    questions::read_questions(glossary, p.at, p.label, p.kind)
}

// Reads all paragraphs, and writes nothing.
fn check_all(
    glossary: &Glossary<'_>,
    from: usize,
    kinds: &[u16; 16],
    k: usize,
) -> Result<usize, Fault>
    requires { Readable glossary.now.text.now from k glossary.now.n }
    ensures { Checks glossary.now.text.now from kinds.now k glossary.now.words.now glossary.now.n glossary.now.records.now result }
{
    let mut count = 0;
    let mut at = from;
    let mut s = lexer::start(glossary.text, at);
    // Kept: only reading a paragraph says where the next one begins, so no iterator counts them.
    while s < glossary.text.len() {
        at = read_paragraph(glossary, at, kinds, k)?;
        count += 1;
        s = lexer::start(glossary.text, at);
    }
    Ok(count)
}

// Reads all paragraphs from an offset of the text on, by its glossary and the offsets of the names of k kinds, and says how many they
// are, or the first fault among them. Where a text has more than 65,535 bytes, or an offset or a count is out of range, the answer means
// nothing.
pub fn check(
    glossary: &Glossary<'_>,
    from: usize,
    kinds: &[u16; 16],
    k: usize,
) -> Result<usize, Fault>
    ensures { Checks glossary.now.text.now from kinds.now k glossary.now.words.now glossary.now.n glossary.now.records.now result }
{
    if !gatherings::readable(glossary.text, from, k, glossary.n) {
        return Ok(0);
    }
    check_all(glossary, from, kinds, k)
}

// The bytes of a pattern, whose number is n; none where there are fewer.
fn front(bytes: &[u8; 4096], n: usize) -> &[u8]
    ensures { n ≤ 4096 → result.now ≡ take n bytes.now }
{
    bytes.get(..n).unwrap_or(&[])
}

// Reads a pattern again, and puts its block.
fn put_phrase(
    glossary: &Glossary<'_>,
    at: usize,
    kinds: &[u16; 16],
    k: usize,
    places: &[u8; 96],
    vocabulary: &[u8],
    page: &mut Page,
) -> Head
    requires { Readable glossary.now.text.now at k glossary.now.n }
    ensures { PutsPhrase glossary.now.text.now at kinds.now k glossary.now.words.now glossary.now.n glossary.now.records.now places.now vocabulary.now page.old.bytes page.old.end page.new.bytes page.new.end result }
{
    let mut out = [0u8; 4096];
    let mut variables = [0u16; 64];
    let Ok(p) = phrases::read_phrase(glossary, at, kinds, k, &mut out, &mut variables) else {
        return Head {
            label: 0,
            kind: 0,
            at,
        };
    };
    let words = glossary.words;
    let tables = Tables {
        text: glossary.text,
        kinds,
        words,
        places,
        variables: &variables,
    };
    blocks::put_block(&tables, p.label, vocabulary, front(&out, p.size), page);
    Head {
        label: p.label,
        kind: p.kind,
        at: p.at,
    }
}

// The offset behind the first two tokens from an offset on: a label and ?.
fn behind_asking(text: &[u8], at: usize) -> usize
    requires { at ≤ length text.now }
    ensures { BehindAsking text.now at result }
{
    let label = lexer::start(text, at);
    let asking = lexer::start(text, lexer::end(text, label));
    lexer::end(text, asking)
}

// Puts the answer to each question that stands from an offset on. They ask a pattern of a kind that begins at the offset s, and whose
// label is the token at the offset `label`. Gives the offset behind them.
fn put_questions(
    glossary: &Glossary<'_>,
    s: usize,
    label: usize,
    kind: usize,
    from: usize,
    page: &mut Page,
) -> usize
    requires { Readable glossary.now.text.now from 0 glossary.now.n }
    ensures { PutsQuestions glossary.now.text.now s label kind from glossary.now.words.now glossary.now.n glossary.now.records.now page.old.bytes page.old.end page.new.bytes result page.new.end }
{
    let mut at = from;
    // Kept: only reading a question says where the next one begins, so no iterator gives them.
    while questions::begins(glossary.text, at) {
        verdicts::put_question(glossary.text, s, behind_asking(glossary.text, at), page);
        let Ok(behind) = questions::read_question(glossary, at, label, kind) else {
            return at;
        };
        at = behind;
    }
    at
}

// Reads a paragraph again, and puts what is printed for it. Gives the offset behind it.
fn put_paragraph(
    glossary: &Glossary<'_>,
    at: usize,
    kinds: &[u16; 16],
    k: usize,
    places: &[u8; 96],
    vocabulary: &[u8],
    page: &mut Page,
) -> usize
    requires { Readable glossary.now.text.now at k glossary.now.n }
    ensures { PutsParagraph glossary.now.text.now at kinds.now k glossary.now.words.now glossary.now.n glossary.now.records.now places.now vocabulary.now page.old.bytes page.old.end page.new.bytes result page.new.end }
{
    let head = put_phrase(glossary, at, kinds, k, places, vocabulary, page);
    let s = lexer::start(glossary.text, at);
    put_questions(glossary, s, head.label, head.kind, head.at, page)
}

// Puts what is printed for each of m paragraphs.
fn put_all(
    glossary: &Glossary<'_>,
    from: usize,
    kinds: &[u16; 16],
    k: usize,
    places: &[u8; 96],
    vocabulary: &[u8],
    m: usize,
    page: &mut Page,
)
    requires { Readable glossary.now.text.now from k glossary.now.n }
    ensures { PutsBlocks glossary.now.text.now from kinds.now k glossary.now.words.now glossary.now.n glossary.now.records.now places.now vocabulary.now m page.old.bytes page.old.end page.new.bytes page.new.end }
{
    let mut at = from;
    for _i in 0..m {
        at = put_paragraph(glossary, at, kinds, k, places, vocabulary, page);
    }
}

// Puts what is printed for each of m paragraphs, which stand from an offset of the text on. The tables are those of check, with the
// number of places of each word and the vocabulary's bytes. Where the text has other paragraphs than these, or a fault, nothing is
// promised of the page.
pub fn put(
    glossary: &Glossary<'_>,
    from: usize,
    kinds: &[u16; 16],
    k: usize,
    places: &[u8; 96],
    vocabulary: &[u8],
    m: usize,
    page: &mut Page,
)
    ensures { PutsBlocks glossary.now.text.now from kinds.now k glossary.now.words.now glossary.now.n glossary.now.records.now places.now vocabulary.now m page.old.bytes page.old.end page.new.bytes page.new.end }
{
    if gatherings::readable(glossary.text, from, k, glossary.n) {
        put_all(glossary, from, kinds, k, places, vocabulary, m, page);
    }
}
