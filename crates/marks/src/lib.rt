// For each subterm of a pattern its size and the number of its entries, noted once.
#![tactic(auto)]

ghost use Rattle.std.specs.Prelude.{◌≡◌, ◌+◌, ◌*◌, ◌≤◌, ◌<◌, length, set};
ghost use Rattle.wire.specs.TermBytes.{most_bytes};
ghost use Rattle.extents.specs.Bytes.{Small};
ghost use Rattle.marks.specs.Marking.{mark_scale, sibling_at, head_size, bits_below, mark_term, marked};
ghost use Rattle.marks.specs.Inside.{most_entries, Notes};

// How many other words the result kind of the word f has; 0 for what is no word.
fn sibling_count(f: usize, siblings: &[u8; 384]) -> usize
    ensures { Small result (sibling_at siblings.now f) }
{
    if f < 128 {
        siblings[256 + f] as usize
    } else {
        0
    }
}

// How far the notes have come: the offset behind a term, and its entries.
#[derive(Drop)]
struct Noted {
    at: usize,
    entries: usize,
}

// Notes a term's size and entries at its offset.
fn note(size: usize, entries: usize, at: usize, marks: &mut [u32])
    requires size_lt_mark_scale { size < mark_scale }
    requires entries_lt_most_entries { entries < most_entries }
    ensures { marks.new ≡ set marks.old at (size + mark_scale * entries) }
{
    if at < marks.len() {
        marks[at] = (size + 8192 * entries) as u32;
    }
}

// How many bytes a term has before those below it: a word and its map, or a name; none where no byte is left.
fn head(term: &[u8], at: usize) -> usize
    ensures { result ≡ head_size term.now at }
{
    match term.get(at) {
        None => 0,
        Some(b) if *b < 128 => maps::NODE,
        Some(_) => 1,
    }
}

// The map of the word at an offset; no bit where no word stands there.
fn map_below(term: &[u8], at: usize) -> usize
    ensures { Small result (bits_below term.now at) }
{
    if 127 < extents::byte(term, at) {
        return 0;
    }
    extents::map(term, at + 1)
}

// Notes what the term at an offset has, with so many levels left: the terms at its written places first, the lowest before the
// others.
fn mark_term(
    term: &[u8],
    word: usize,
    siblings: &[u8; 384],
    left: usize,
    marks: &mut [u32],
) -> Noted
    requires term_len_bound { length term.now ≤ most_bytes }
    requires word_in_bounds { word ≤ length term.now + 1 }
    ensures { Notes (mark_term left siblings.now term.now word marks.old) (length term.now) word marks.old result.at result.entries marks.new }
{
    if left == 0 {
        return Noted {
            at: word,
            entries: 0,
        };
    }
    let mut entries = sibling_count(extents::byte(term, word), siblings);
    let mut bits = map_below(term, word);
    let mut at = word + head(term, word);
    // Kept: the places of a map are passed until none is left, so no index is counted.
    while bits != 0 {
        let bit = bits % 2;
        bits /= 2;
        if bit == 1 {
            let here = mark_term(term, at, siblings, left - 1, marks);
            at = here.at;
            entries += here.entries;
        }
    }
    note(at - word, entries, word, marks);
    Noted { at, entries }
}

// Notes for each subterm of a pattern's term its size in bytes and how many entries its listing has: size + 8192 * entries, at
// the subterm's offset. How many others a word's result kind has is read from a table of siblings, from 256 on. Bytes from the
// 4,096th on are not looked at.
pub fn mark(term: &[u8], siblings: &[u8; 384], marks: &mut [u32])
    ensures { marks.new ≡ marked siblings.now term.now marks.old }
{
    let end = term.len().min(4096);
    let _ = mark_term(&term[..end], 0, siblings, 32, marks);
}
