// The patterns of a kind among the paragraphs of a text, gathered as the bytes of a book.
#![tactic(auto)]

ghost use Rattle.std.specs.Prelude.{◌≡◌, true, false, ◌+◌, ◌<◌, ◌≤◌, length};
ghost use Rattle.gatherings.specs.Courses.{Readable};
ghost use Rattle.gatherings.specs.Gathering.{most_book, ReadsOne, Sized, Appends, Keeps, GathersRow, Seals, Gathers};

use clauses::Glossary;
use faults::Fault;

// How many patterns there are, and the size of their book.
#[derive(Clone, Copy)]
pub struct Gathered {
    pub count: usize,
    pub size: usize,
}

// The kind and the number of bytes of a paragraph's pattern, and the offset behind the paragraph.
#[derive(Clone, Copy)]
struct One {
    kind: usize,
    size: usize,
    at: usize,
}

// Whether a text may be read from an offset on, by the names of k kinds and n words.
pub fn readable(text: &[u8], at: usize, k: usize, n: usize) -> bool
    ensures readable { result ≡ true → Readable text.now at k n }
    ensures fact { result ≡ false → Readable text.now at k n → ⊥ }
{
    text.len() <= 65535 && at <= text.len() && k <= 16 && n <= 96
}

// Reads a paragraph, and writes its pattern to the front of out.
fn read_one(
    glossary: &Glossary<'_>,
    at: usize,
    kinds: &[u16; 16],
    k: usize,
    out: &mut [u8; 4096],
) -> Result<One, Fault>
    requires { Readable glossary.now.text.now at k glossary.now.n }
    ensures { ReadsOne glossary.now.text.now at kinds.now k glossary.now.words.now glossary.now.n glossary.now.records.now out.new result }
{
    let mut variables = [0u16; 64];
    let p = phrases::read_phrase(glossary, at, kinds, k, out, &mut variables)?;
    let behind = questions::read_questions(glossary, p.at, p.label, p.kind)?;
    Ok(One {
        kind: p.kind,
        size: p.size,
        at: behind,
    })
}

// Puts the first n bytes of a pattern at an offset of the book.
fn append(pattern: &[u8; 4096], n: usize, book: &mut [u8], at: usize)
    requires book_len { length book.old ≡ most_book }
    requires n_bound { n ≤ 4096 }
    requires le_at { 1 ≤ at }
    requires n_bound_2 { at + n ≤ most_book }
    ensures { Appends pattern.now n book.old at book.new }
{
    slices::copy(&pattern[..n], &mut book[at..]);
}

// Puts a pattern of kind s behind those that were gathered, where they are fewer than 64, and counts it.
fn keep(
    kind: usize,
    s: usize,
    pattern: &[u8; 4096],
    n: usize,
    book: &mut [u8; 262145],
    so_far: Gathered,
) -> Gathered
    requires sized { Sized so_far.count so_far.size }
    requires n_bound { n ≤ 4096 }
    requires count_bound { so_far.count < usize.MAX }
    ensures { Keeps kind s pattern.now n book.old so_far.count so_far.size book.new result }
{
    if kind != s {
        return so_far;
    }
    let count = so_far.count + 1;
    if 64 < count {
        return Gathered { count, ..so_far };
    }
    append(pattern, n, book, so_far.size);
    Gathered {
        count,
        size: so_far.size + n,
    }
}

// Gathers the patterns of kind s among m paragraphs behind the book's first byte.
fn gather_all(
    glossary: &Glossary<'_>,
    from: usize,
    kinds: &[u16; 16],
    k: usize,
    m: usize,
    s: usize,
    book: &mut [u8; 262145],
) -> Gathered
    requires { Readable glossary.now.text.now from k glossary.now.n }
    ensures { GathersRow glossary.now.text.now from kinds.now k glossary.now.words.now glossary.now.n glossary.now.records.now m s book.new result }
{
    let mut out = [0u8; 4096];
    let mut at = from;
    let mut gathered = Gathered { count: 0, size: 1 };
    for _ in 0..m {
        let Ok(one) = read_one(glossary, at, kinds, k, &mut out) else {
            return gathered;
        };
        gathered = keep(one.kind, s, &out, one.size, book, gathered);
        at = one.at;
    }
    gathered
}

// Writes how many patterns a book has, where they are not too many.
fn seal(count: usize, book: &mut [u8; 262145])
    ensures { Seals count book.old book.new }
{
    if count <= 64 {
        book[0] = count as u8;
    }
}

// Gathers the patterns of kind s among the m paragraphs that stand from an offset of the text on, by its glossary and the offsets of the
// names of k kinds: how many they are, and the size of their book at the front of `book`, where they are at most 64. Where a
// text has more than 65,535 bytes, an offset or a count is out of range, or other paragraphs stand there, the answer means nothing.
pub fn gather(
    glossary: &Glossary<'_>,
    from: usize,
    kinds: &[u16; 16],
    k: usize,
    m: usize,
    s: usize,
    book: &mut [u8; 262145],
) -> Gathered
    ensures { Gathers glossary.now.text.now from kinds.now k glossary.now.words.now glossary.now.n glossary.now.records.now m s book.new result }
{
    if !readable(glossary.text, from, k, glossary.n) {
        return Gathered { count: 0, size: 0 };
    }
    let g = gather_all(glossary, from, kinds, k, m, s, book);
    seal(g.count, book);
    g
}
