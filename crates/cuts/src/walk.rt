// The walk over an entry and a pattern, term by term.
ghost use Rattle.std.specs.Prelude.{◌≡◌, ◌%◌, ◌≤◌, eqb, length};
ghost use Rattle.extents.specs.Extents.{most_extent};
ghost use Rattle.cuts.specs.Walking.{Inside, StaysInside, InMap, StaysOver};
ghost use Rattle.cuts.specs.Cutting.{Lacks, NodesAt, NodesRead, NodesFound, MapIs, PutsMap, Last, above_of, wordless_at, extent_at, TakesOver, CutsTerms, CutsWord, CutsPlaces};

use crate::own;
use crate::own::Walk;
use others::Full;

// The places of a word that are still to be passed: the word's offset in the copy, the map of the places below at which the copy
// has a term, the bit of the next place, and the bits of the entry's map and of the pattern's from there on.
#[derive(Clone, Copy)]
struct Bits {
    top: usize,
    low: usize,
    bit: usize,
    entry: usize,
    pattern: usize,
}

// A word of the pattern, how many bytes the entry has for it, and both maps.
#[derive(Drop)]
struct Node {
    word: usize,
    size: usize,
    entry: usize,
    pattern: usize,
}

// Whether no level is left, or bytes of a word are missing: of the pattern's, of the entry's unless it is open, or of the copy's.
fn lacks(left: usize, blank: bool, entry: usize, pattern: usize, copy: usize) -> bool
    ensures { Lacks left blank entry pattern copy result }
{
    left == 0 || pattern < maps::NODE || copy < maps::NODE || !blank && entry < maps::NODE
}

// Reads a word of the pattern, and the entry's map there: none where the entry is open.
fn read_maps(blank: bool, entry: &[u8], i: usize, pattern: &[u8], q: usize) -> Node
    requires { NodesAt blank entry.now i pattern.now q }
    ensures { NodesRead blank entry.now i pattern.now q result }
{
    let word = pattern[q] as usize;
    let other = maps::read(pattern, q + 1) as usize;
    if blank {
        return Node {
            word,
            size: 0,
            entry: 0,
            pattern: other,
        };
    }
    let mine = maps::read(entry, i + 1) as usize;
    Node {
        word,
        size: maps::NODE,
        entry: mine,
        pattern: other,
    }
}

// Reads a word of the pattern, and the entry's map there, if a level is left, they are there and the copy has room for the word.
fn read_node(
    left: usize,
    blank: bool,
    entry: &[u8],
    i: usize,
    pattern: &[u8],
    q: usize,
    room: usize,
) -> Option<Node>
    requires i_in_bounds { i ≤ length entry.now }
    requires q_in_bounds { q ≤ length pattern.now }
    ensures { NodesFound left blank entry.now i pattern.now q room result }
{
    if lacks(left, blank, entry.len() - i, pattern.len() - q, room) {
        return None;
    }
    Some(read_maps(blank, entry, i, pattern, q))
}

// The word's map in the copy: what is below the next place, the place itself, and the entry's places above; where no place is
// left, what is below.
fn map_at(low: usize, bit: usize, e: usize, p: usize) -> u8
    requires { InMap low bit e p }
    ensures { MapIs low bit e p result }
{
    if e + p == 0 {
        return low as u8;
    }
    ((low + (bit + e / 2 * (2 * bit))) % 256) as u8
}

// Puts the word's map into the copy.
fn put_map(copy: &mut [u8], bits: Bits)
    requires in_map { InMap bits.low bits.bit bits.entry bits.pattern }
    requires top_le_most_extent { bits.top ≤ most_extent }
    ensures { PutsMap bits copy.old copy.new }
{
    let top = bits.top;
    maps::write(
        map_at(bits.low, bits.bit, bits.entry, bits.pattern),
        copy,
        top + 1,
    );
}

// Whether no place is left. A map has no bit above 128.
fn last(bits: Bits) -> bool
    requires { InMap bits.low bits.bit bits.entry bits.pattern }
    ensures { Last bits.bit bits.entry bits.pattern result }
{
    bits.entry + bits.pattern == 0 || 128 < bits.bit
}

// The places above the next one. The map below has this place where the copy has a term for it, which stands from `at` to `end`.
fn above(bits: Bits, at: usize, end: usize) -> Bits
    requires in_map { InMap bits.low bits.bit bits.entry bits.pattern }
    requires bit_bound { bits.bit ≤ 128 }
    ensures in_map_2 { InMap result.low result.bit result.entry result.pattern }
    ensures value { result ≡ above_of bits at end }
{
    Bits {
        top: bits.top,
        low: if at < end {
            bits.low + bits.bit
        } else {
            bits.low
        },
        bit: 2 * bits.bit,
        entry: bits.entry / 2,
        pattern: bits.pattern / 2,
    }
}

// How many bytes the term at an offset takes.
fn extent(bytes: &[u8], i: usize) -> usize
    requires { i ≤ length bytes.now }
    ensures { result ≡ extent_at bytes.now i }
{
    extents::term_size(&bytes[i..])
}

// How many bytes the pattern has at a place where it has no word: none for nothing, one for a name. None where it has a word.
fn wordless(gap: bool, pattern: &[u8], q: usize) -> Option<usize>
    ensures { result ≡ wordless_at gap pattern.now q }
{
    if gap {
        return Some(0);
    }
    if q < pattern.len() && 127 < pattern[q] {
        return Some(1);
    }
    None
}

// Copies the entry's term, where it has one. The pattern has none there, or a name, and q bytes of it are passed then.
fn take_over(copy: &mut [u8], w: Walk, blank: bool, entry: &[u8], q: usize) -> Result<Walk, Full>
    requires at_in_bounds { w.at ≤ length copy.old }
    requires w_in_bounds { w.entry ≤ length entry.now }
    ensures stays_over { StaysOver (length copy.old) (length entry.now) w q result }
    ensures takes_over { TakesOver copy.old w blank entry.now copy.new result }
{
    if blank {
        return Ok(Walk { pattern: q, ..w });
    }
    let at = w.at;
    let i = w.entry;
    let n = extent(entry, i);
    if copy.len() - at < n {
        return Err(Full);
    }
    slices::copy(&entry[i..i + n], &mut copy[at..]);
    Ok(Walk {
        at: at + n,
        entry: i + n,
        pattern: q,
        ..w
    })
}

// The entries of a term of the entry and a word of the pattern. Where the entry is open they begin with those of the word's kind.
// What both allow is put into the copy, if entries are due later.
#[cycle(cut_node_cut_place_cut_places)]
pub(crate) fn cut_node(
    copy: &mut [u8],
    w: Walk,
    blank: bool,
    entry: &[u8],
    pattern: &[u8],
    siblings: &[u8; 384],
    left: usize,
    out: &mut [u8],
) -> Result<Walk, Full>
    requires { Inside (length copy.old) (length entry.now) (length pattern.now) (length out.old) w }
    ensures stays_inside { StaysInside (length copy.old) (length entry.now) (length pattern.now) (length out.old) result }
    ensures cuts_word { CutsWord copy.old w blank entry.now pattern.now siblings.now left out.old copy.new out.new result }
{
    let top = w.at;
    let room = copy.len() - top;
    let Some(node) = read_node(left, blank, entry, w.entry, pattern, w.pattern, room) else {
        return Err(Full);
    };
    let word = node.word;
    if 127 < word {
        return Err(Full);
    }
    let bits = Bits {
        top,
        low: 0,
        bit: 1,
        entry: node.entry,
        pattern: node.pattern,
    };
    let next = own::write_own(copy, w, blank, entry, word, node.size, siblings, out)?;
    if next.todo == 0 {
        return Ok(next);
    }
    copy[top] = word as u8;
    cut_places(copy, next, bits, entry, pattern, siblings, left - 1, out)
}

// The entries of the places of a word from some bit on, the lowest first. The word's map in the copy keeps the places below that
// both allow, the place itself, and those of the entry above; in the end it has the places that both allow.
#[cycle(cut_node_cut_place_cut_places)]
fn cut_places(
    copy: &mut [u8],
    w: Walk,
    bits: Bits,
    entry: &[u8],
    pattern: &[u8],
    siblings: &[u8; 384],
    left: usize,
    out: &mut [u8],
) -> Result<Walk, Full>
    requires inside { Inside (length copy.old) (length entry.now) (length pattern.now) (length out.old) w }
    requires in_map { InMap bits.low bits.bit bits.entry bits.pattern }
    requires top_le_most_extent { bits.top ≤ most_extent }
    ensures stays_inside { StaysInside (length copy.old) (length entry.now) (length pattern.now) (length out.old) result }
    ensures cuts_places { CutsPlaces copy.old w bits entry.now pattern.now siblings.now left out.old copy.new out.new result }
{
    let mut w = w;
    let mut bits = bits;
    // Kept: a turn passes the next place of either map until none is left, so no index is counted.
    loop {
        put_map(copy, bits);
        if last(bits) {
            return Ok(w);
        }
        let next = cut_place(copy, w, bits, entry, pattern, siblings, left, out)?;
        if next.todo == 0 {
            return Ok(next);
        }
        bits = above(bits, w.at, next.at);
        w = next;
    }
}

// The entries of a term of the entry and a term of the pattern at the next place. Where the pattern has no word there are none,
// and both allow what the entry has.
#[cycle(cut_node_cut_place_cut_places)]
fn cut_place(
    copy: &mut [u8],
    w: Walk,
    bits: Bits,
    entry: &[u8],
    pattern: &[u8],
    siblings: &[u8; 384],
    left: usize,
    out: &mut [u8],
) -> Result<Walk, Full>
    requires { Inside (length copy.old) (length entry.now) (length pattern.now) (length out.old) w }
    ensures stays_inside { StaysInside (length copy.old) (length entry.now) (length pattern.now) (length out.old) result }
    ensures cuts_terms { CutsTerms copy.old w (eqb (bits.entry % 2) 0) entry.now (eqb (bits.pattern % 2) 0) pattern.now siblings.now left out.old copy.new out.new result }
{
    let q = w.pattern;
    let blank = bits.entry % 2 == 0;
    if let Some(size) = wordless(bits.pattern % 2 == 0, pattern, q) {
        return take_over(copy, w, blank, entry, q + size);
    }
    cut_node(copy, w, blank, entry, pattern, siblings, left, out)
}
