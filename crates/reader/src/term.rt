// One term read node by node, from its first byte to its last: the core of every reading.
ghost use Rattle.std.specs.Prelude.{◌≡◌, ◌+◌, ◌<◌, ◌≤◌, length, replicate};
ghost use Rattle.reader.specs.Cursors.{Going};
ghost use Rattle.reader.specs.Full.{FullTest};
ghost use Rattle.reader.specs.Terms.{Passed, NodeRead, NodesRead, WholeAt, TermRead};

use crate::node;
use crate::node::Node;
use crate::refusal::TermRefusal;
use crate::words::Words;
use cursors::Cursor;

// Whether a word of a kind stands at the front of the rest of a term, with all its places written.
pub(crate) fn full_word<'a>(
    rest: &[u8],
    kind: u8,
    words: usize,
    results: &'a [u8; 96],
    maps: &'a [u8; 96],
) -> bool
    requires { words ≤ 96 }
    ensures { FullTest rest.now kind words results.now maps.now result }
{
    if rest.len() < maps::NODE {
        return false;
    }
    let f = rest[0] as usize;
    f < words && results[f] == kind && maps::read(rest, 1) == maps[f]
}

// Reads on over full words, up to a place where another node stands or level 33 would begin. The rest of the term is
// handed on for each. It is put in place where it is called: a call that hands the tables on costs more than a name's step.
#[inline(always)]
pub(crate) fn full_words<'a>(w: Words<'a>, t: &[u8], frames: &mut [u64; 32], from: Cursor) -> Cursor
    requires { Going w.v.now t.now frames.old from }
    ensures { Passed w.entry.v.now t.now frames.old from frames.new result }
{
    let maps = w.maps;
    let offsets = w.offsets;
    let mut c = from;
    // Kept: no index is counted; a turn goes up a level, or on to the next place, or past a word, until no place is due.
    while 0 < c.depth {
        let depth = c.depth;
        let due = c.due;
        if due % 256 == 0 {
            if frames::written(due) == 0 {
                c = c.up(frames[depth - 1]);
            } else {
                c = c.onto(frames::advanced(due));
            }
        } else {
            let at = c.at;
            let kind = w.v[frames::kinds(due)];
            if 31 < depth {
                return c;
            }
            if !full_word(&t[at..], kind, w.count, w.results, maps) {
                return c;
            }
            let f = t[at] as usize;
            let rest = frames::passed(due);
            c = c.onto(rest).whole_word();
            if maps[f] != 0 {
                frames[depth] = rest;
                c = c.down(frames::full(maps[f], offsets[f]));
            }
        }
    }
    c
}

// Reads the node that stands where a term of a kind is due. The frame of a word with written places comes on top of
// the one that the cursor has.
fn read_node<'a>(
    w: Words<'a>,
    t: &[u8],
    names: &mut [u16; 64],
    frames: &mut [u64; 32],
    c: Cursor,
    kind: u8,
) -> Result<Cursor, TermRefusal>
    requires words_bound { w.count ≤ 96 }
    requires names_len { (length names.old ≡ 64) × (length frames.old ≡ 32) }
    requires at_in_bounds { (c.at ≤ length t.now) × (c.words ≤ c.at) × (length t.now ≤ 4096) }
    ensures { NodeRead t.now w.entry.count w.entry.offsets.now w.entry.results.now w.entry.maps.now kind c names.old frames.old names.new frames.new result }
{
    let at = c.at;
    let depth = c.depth;
    match node::node_at(&t[at..], at, depth, kind, w.count, w.results, w.maps)? {
        Node::Name(n) => {
            if node::clashes(names[n], kind) {
                return Err(TermRefusal::Clashes(at));
            }
            names[n] = kind as u16;
            Ok(c.leaf())
        }
        Node::Word(f, written) => {
            let map = w.maps[f];
            let past = c.word(written == map);
            if written == 0 {
                return Ok(past);
            }
            frames[depth] = c.due;
            Ok(past.down(frames::of_word(written, map, w.offsets[f])))
        }
    }
}

// Reads the node of a kind that is due at a cursor, and all that is due behind it.
fn read_nodes<'a>(
    w: Words<'a>,
    t: &[u8],
    names: &mut [u16; 64],
    from: Cursor,
    first: u8,
) -> Result<Cursor, TermRefusal>
    requires { (length names.old ≡ 64) × Going w.v.now t.now (replicate 32 0) from × (length t.now ≤ 4096) }
    ensures { NodesRead w.entry.v.now t.now names.old from first names.new result }
{
    let mut frames = [0u64; 32];
    let mut c = from;
    let mut kind = first;
    // Kept: no index is counted; how many bytes a turn passes is known once its node and the full words behind it are read.
    loop {
        let x = read_node(w, t, names, &mut frames, c, kind)?;
        let past = full_words(w, t, &mut frames, x);
        let due = past.due;
        if past.depth == 0 {
            return Ok(past);
        }
        kind = w.v[frames::kinds(due)];
        c = past.onto(frames::passed(due));
    }
}

// Whether 255 stands at an offset.
fn whole_at(t: &[u8], at: usize) -> bool
    ensures { WholeAt t.now at result }
{
    at < t.len() && t[at] == 255
}

// Reads the term of a kind that stands at an offset of some bytes. The table tells at which kinds names stood before,
// and at the end also the names of this term. Bytes may follow the term.
pub(crate) fn read_term<'a>(
    w: Words<'a>,
    t: &[u8],
    from: usize,
    kind: u8,
    names: &mut [u16; 64],
) -> Result<Cursor, TermRefusal>
    requires { (from ≤ length t.now) × (length names.old ≡ 64) × (length t.now ≤ 4096) }
    ensures { TermRead w.entry.v.now t.now from kind names.old names.new result }
{
    let c = cursors::start(from);
    if whole_at(t, from) {
        return Ok(c.leaf());
    }
    read_nodes(w, t, names, c, kind)
}
