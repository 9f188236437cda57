// Document 02's filling file: the map of a pattern's names, and a complete term for each of them.
ghost use Rattle.std.specs.Prelude.{◌≡◌, ◌+◌, ◌/◌, ◌<◌, ◌≤◌, length};
ghost use Rattle.namemaps.specs.Difference.{DifferenceAt};
ghost use Rattle.reader.specs.Fillings.{FaultAt, ValueRead, EntryRead, Skips, starts_passed, ValuesRead, FileRead};
ghost use Rattle.reader.specs.declared.filling.FillingRefusal.TheVariants.{Vocabulary, Pattern};

use crate::refusal::TermRefusal;
use crate::term;
use crate::words::Words;
use signature::VocabularyRefusal;

// Why the inputs of fill are refused: document 01's lines 1 to 5 and 7 to 15, and 21 and 22.
#[derive(Clone, Copy)]
pub enum FillingRefusal {
    Vocabulary(VocabularyRefusal),
    Pattern(TermRefusal),
    Names(usize),
    Value(usize),
}

impl From<VocabularyRefusal> for FillingRefusal {
    ghost from_gives = { λ why r. r ≡ Vocabulary why };

    fn from(why: VocabularyRefusal) -> FillingRefusal {
        FillingRefusal::Vocabulary(why)
    }
}

impl From<TermRefusal> for FillingRefusal {
    ghost from_gives = { λ why r. r ≡ Pattern why };

    fn from(why: TermRefusal) -> FillingRefusal {
        FillingRefusal::Pattern(why)
    }
}

// Where a complete term ends and how many levels it has.
#[derive(Clone, Copy)]
pub(crate) struct Value {
    pub(crate) end: usize,
    pub(crate) levels: u8,
}

// Where a term of a kind is at fault that is due below so many words: no full word stands at the front of the rest.
fn fault_at(
    rest: &[u8],
    at: usize,
    depth: usize,
    kind: u8,
    words: usize,
    results: &[u8; 96],
) -> usize
    requires { (at + length rest.now < 18446744073709551616) × (words ≤ 96) }
    ensures { FaultAt rest.now at depth kind words results.now result }
{
    if rest.len() == 0 || 31 < depth {
        return at;
    }
    let f = rest[0] as usize;
    if words <= f || results[f] != kind {
        return at;
    }
    at + 1
}

// Reads the complete term of a kind that stands at an offset of some bytes, or says where it is at fault. Bytes may follow it.
pub(crate) fn read_value<'a>(w: Words<'a>, b: &[u8], from: usize, kind: u8) -> Result<Value, usize>
    requires { from ≤ length b.now }
    ensures { ValueRead w.entry.v.now b.now from kind result }
{
    if !term::full_word(&b[from..], kind, w.count, w.results, w.maps) {
        return Err(fault_at(&b[from..], from, 0, kind, w.count, w.results));
    }
    let f = b[from] as usize;
    let past = cursors::start(from).whole_word();
    let maps = w.maps;
    if maps[f] == 0 {
        return Ok(Value {
            end: past.at,
            levels: past.deepest as u8,
        });
    }
    let mut frames = [0u64; 32];
    let first = past.down(frames::full(maps[f], w.offsets[f]));
    let c = term::full_words(w, b, &mut frames, first);
    let depth = c.depth;
    if depth == 0 {
        return Ok(Value {
            end: c.at,
            levels: c.deepest as u8,
        });
    }
    let at = c.at;
    let due = w.v[frames::kinds(c.due)];
    Err(fault_at(&b[at..], at, depth, due, w.count, w.results))
}

// Reads the value of a name, by its entry in the table of names. A name without a kind has none, and so no bytes.
fn read_entry<'a>(w: Words<'a>, b: &[u8], from: usize, kind: u16) -> Result<Value, usize>
    requires { from ≤ length b.now }
    ensures { EntryRead w.entry.v.now b.now from kind result }
{
    if 256 <= kind {
        return Ok(Value {
            end: from,
            levels: 0,
        });
    }
    read_value(w, b, from, kind as u8)
}

// Whether a name is the first of eight that have one byte in the map at the front of b, and the byte is 0.
fn skips(b: &[u8], n: usize) -> bool
    requires { n / 8 < length b.now }
    ensures { Skips b.now n result }
{
    n % 8 == 0 && b[n / 8] == 0
}

// Sets the eight starts behind the n-th to one offset.
fn pass_eight(starts: &mut [usize; 65], n: usize, at: usize)
    requires { n + 8 ≤ 64 }
    ensures { starts.new ≡ starts_passed starts.old n at 8 }
{
    starts[n + 1..n + 9].fill(at);
}

// Reads a complete term for each name of the table, ascending, and sees that nothing follows the last. The value of name n
// begins at the n-th start and ends at the next; its levels are noted too. The map names the same names, so that eight of them
// are passed at once where none stands in it.
fn read_values<'a>(
    w: Words<'a>,
    b: &[u8],
    names: &[u16; 64],
    starts: &mut [usize; 65],
    depths: &mut [u8; 64],
    deepest: usize,
) -> Result<usize, FillingRefusal>
    requires in_bounds { 8 ≤ length b.now }
    requires difference_at { DifferenceAt b.now names.now 64 }
    ensures { ValuesRead w.entry.v.now b.now names.now deepest starts.new depths.new result }
{
    *starts = [8usize; 65];
    *depths = [0u8; 64];
    let mut at = 8usize;
    let mut n = 0usize;
    // Kept: a step passes one name or eight, so no iterator counts it.
    while n < 64 {
        if skips(b, n) {
            pass_eight(starts, n, at);
            n += 8;
            continue;
        }
        match read_entry(w, b, at, names[n]) {
            Err(q) => {
                return Err(FillingRefusal::Value(q));
            }
            Ok(value) => {
                depths[n] = value.levels;
                at = value.end;
                n += 1;
                starts[n] = at;
            }
        }
    }
    if at < b.len() {
        return Err(FillingRefusal::Value(at));
    }
    Ok(deepest)
}

// Reads a filling file for a pattern with that table of names.
pub(crate) fn read_file<'a>(
    w: Words<'a>,
    b: &[u8],
    names: &[u16; 64],
    starts: &mut [usize; 65],
    depths: &mut [u8; 64],
    deepest: usize,
) -> Result<usize, FillingRefusal>
    ensures { FileRead w.entry.v.now b.now names.now deepest starts.new depths.new result }
{
    if b.len() < 8 {
        return Err(FillingRefusal::Names(0));
    }
    let n = namemaps::first_difference(b, names);
    if n < 64 {
        return Err(FillingRefusal::Names(n));
    }
    read_values(w, b, names, starts, depths, deepest)
}
