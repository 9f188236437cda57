// Patterns in words, read off a text: the bytes of the pattern and the offsets of its variables, or what is wrong and where.
#![tactic(auto)]

ghost use Rattle.std.specs.Prelude.{◌≡◌, ◌≤◌, length};
ghost use Rattle.wire.specs.Vocabulary.{most_kinds, most_words};
ghost use Rattle.clauses.specs.Reading.{Within};
ghost use Rattle.phrases.specs.Phrases.{ReadsKind, ReadsLeaf, ReadsRootVariable, kind_of, ReadsRootWord, ReadsRoot, ReadsLabelled, PhrasePromise};

use clauses::Glossary;
use faults::{Fault, Reason};

// A pattern that was read: the offset of its label, or the text's length where it has none, its kind, the number of its bytes and of
// its variables, and the offset behind it.
#[derive(Clone, Copy)]
pub struct Phrase {
    pub label: usize,
    pub kind: usize,
    pub size: usize,
    pub seen: usize,
    pub at: usize,
}

// Reads the kind behind a root that is open or a variable, and says which it is and the offset behind it.
fn read_kind(text: &[u8], at: usize, kinds: &[u16; 16], k: usize) -> Result<(usize, usize), Fault>
    requires at_in_bounds { at ≤ length text.now }
    requires k_le_most_kinds { k ≤ most_kinds }
    ensures { ReadsKind text.now at kinds.now k result }
{
    let s = lexer::start(text, at);
    if !lexer::is_mark(text, s, b':') {
        return Err(Fault {
            why: Reason::ColonDue,
            at: s,
            of: 0,
        });
    }
    let named = lexer::start(text, lexer::end(text, s));
    if !lexer::is_identifier(text, named) {
        return Err(Fault {
            why: Reason::PlaceDue,
            at: named,
            of: 0,
        });
    }
    let kind = lexer::find(text, named, kinds, k);
    if k <= kind {
        return Err(Fault {
            why: Reason::NotDeclared,
            at: named,
            of: 0,
        });
    }
    Ok((kind, lexer::end(text, named)))
}

// Reads the rest of a pattern whose root is one byte, with so many variables, and writes it.
fn read_leaf(
    text: &[u8],
    at: usize,
    kinds: &[u16; 16],
    k: usize,
    byte: u8,
    seen: usize,
    out: &mut [u8; 4096],
) -> Result<Phrase, Fault>
    requires at_in_bounds { at ≤ length text.now }
    requires k_le_most_kinds { k ≤ most_kinds }
    requires seen_bound { seen ≤ 1 }
    ensures { ReadsLeaf text.now at kinds.now k byte seen out.new result }
{
    let (kind, end) = read_kind(text, at, kinds, k)?;
    out[0] = kind as u8;
    out[1] = byte;
    Ok(Phrase {
        label: text.len(),
        kind,
        size: 2,
        seen,
        at: end,
    })
}

// Reads a pattern that is the variable at an offset.
fn read_root_variable(
    text: &[u8],
    s: usize,
    kinds: &[u16; 16],
    k: usize,
    out: &mut [u8; 4096],
    variables: &mut [u16; 64],
) -> Result<Phrase, Fault>
    requires within { Within text.now s 0 1 0 }
    requires k_le_most_kinds { k ≤ most_kinds }
    ensures { ReadsRootVariable text.now s kinds.now k variables.old out.new variables.new result }
{
    if let Some(why) = clauses::variable_why(text, s, 32, 1, variables, 0) {
        return Err(Fault { why, at: s, of: 0 });
    }
    variables[0] = s as u16;
    read_leaf(text, lexer::end(text, s), kinds, k, 128, 1, out)
}

// The kind of a word, and 0 for what is none.
fn root_kind(records: &[u8; 960], n: usize, f: usize) -> u8
    requires { n ≤ most_words }
    ensures { result ≡ kind_of records.now n f }
{
    if f < n { records[10 * f] } else { 0 }
}

// Reads a pattern that begins with the word at an offset.
fn read_root_word(
    glossary: &Glossary<'_>,
    at: usize,
    s: usize,
    out: &mut [u8; 4096],
    variables: &mut [u16; 64],
) -> Result<Phrase, Fault>
    requires { Within glossary.now.text.now at glossary.now.n 1 0 }
    ensures { ReadsRootWord glossary.now.text.now at s glossary.now.words.now glossary.now.n glossary.now.records.now out.new variables.new result }
{
    let words = glossary.words;
    let f = lexer::find(glossary.text, s, words, glossary.n);
    let kind = root_kind(glossary.records, glossary.n, f);
    out[0] = kind;
    let due = usize::from(kind);
    let p = glossary.read(at, 32, due, out, 1, variables, 0)?;
    Ok(Phrase {
        label: glossary.text.len(),
        kind: due,
        size: p.to,
        seen: p.seen,
        at: p.at,
    })
}

// Reads a pattern without label.
fn read_root(
    glossary: &Glossary<'_>,
    at: usize,
    kinds: &[u16; 16],
    k: usize,
    out: &mut [u8; 4096],
    variables: &mut [u16; 64],
) -> Result<Phrase, Fault>
    requires within { Within glossary.now.text.now at glossary.now.n 1 0 }
    requires k_le_most_kinds { k ≤ most_kinds }
    ensures { ReadsRoot glossary.now.text.now at kinds.now k glossary.now.words.now glossary.now.n glossary.now.records.now out.new variables.new result }
{
    let text = glossary.text;
    let s = lexer::start(text, at);
    if lexer::is_mark(text, s, b'_') {
        return read_leaf(text, lexer::end(text, s), kinds, k, 255, 0, out);
    }
    if lexer::is_variable(text, s) {
        return read_root_variable(text, s, kinds, k, out, variables);
    }
    if !lexer::is_identifier(text, s) {
        return Err(Fault {
            why: Reason::PatternDue,
            at: s,
            of: 0,
        });
    }
    read_root_word(glossary, at, s, out, variables)
}

// Reads a pattern, with its label where it has one.
fn read_labelled(
    glossary: &Glossary<'_>,
    at: usize,
    kinds: &[u16; 16],
    k: usize,
    out: &mut [u8; 4096],
    variables: &mut [u16; 64],
) -> Result<Phrase, Fault>
    requires within { Within glossary.now.text.now at glossary.now.n 1 0 }
    requires k_le_most_kinds { k ≤ most_kinds }
    ensures { ReadsLabelled glossary.now.text.now at kinds.now k glossary.now.words.now glossary.now.n glossary.now.records.now out.new variables.new result }
{
    let text = glossary.text;
    let s = lexer::start(text, at);
    if !lexer::is_identifier(text, s) {
        return read_root(glossary, at, kinds, k, out, variables);
    }
    let e = lexer::end(text, s);
    let colon = lexer::start(text, e);
    if !lexer::is_mark(text, colon, b':') {
        return read_root(glossary, at, kinds, k, out, variables);
    }
    if 32 < e - s {
        return Err(Fault {
            why: Reason::LongName,
            at: s,
            of: 0,
        });
    }
    let root = lexer::end(text, colon);
    let phrase = read_root(glossary, root, kinds, k, out, variables)?;
    Ok(Phrase { label: s, ..phrase })
}

// Reads a pattern from an offset of a text on, by the offsets of the names of k kinds and the text's words. Its bytes go to the front of
// `out`, and the offsets of its variables to that of `variables`. Where the text has more than 65,535 bytes, or an offset or a count is
// out of range, the answer means nothing.
pub fn read_phrase(
    glossary: &Glossary<'_>,
    at: usize,
    kinds: &[u16; 16],
    k: usize,
    out: &mut [u8; 4096],
    variables: &mut [u16; 64],
) -> Result<Phrase, Fault>
    ensures { PhrasePromise glossary.now.text.now at kinds.now k glossary.now.words.now glossary.now.n glossary.now.records.now out.new variables.new result }
{
    let words = glossary.words;
    let records = glossary.records;
    if 16 < k
        || !clauses::fits(
            glossary.text,
            at,
            words,
            glossary.n,
            records,
            out,
            1,
            variables,
            0,
        )
    {
        return Err(Fault {
            why: Reason::LongText,
            at,
            of: 0,
        });
    }
    read_labelled(glossary, at, kinds, k, out, variables)
}
