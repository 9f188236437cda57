// What stands at an offset of some bytes, and where a term ends, by its bytes alone.
#![tactic(auto)]

ghost use Rattle.std.specs.Prelude.{◌≡◌, ◌+◌, ◌<◌, ◌≤◌, length, drop};
ghost use Rattle.std.specs.Int.Count.{ones};
ghost use Rattle.wire.specs.EntryCut.{due_size, entry_size};
ghost use Rattle.maps.specs.Reading.{map_at};
ghost use Rattle.extents.specs.Bytes.{term_byte, Small};
ghost use Rattle.extents.specs.Extents.{term_size};
ghost use Rattle.extents.specs.Nodes.{NodeEnds};

// The byte at an offset, 255 where it is missing. Kept: the number and not an Option, since the contract cites `term_byte`, on which
// the walks above rest, and a missing byte is no word there.
pub fn byte(bytes: &[u8], at: usize) -> usize
    ensures { Small result (term_byte bytes.now at) }
{
    bytes.get(at).map_or(255, |b| usize::from(*b))
}

// The map at an offset, 0 where a byte of it is missing.
pub fn map(bytes: &[u8], at: usize) -> usize
    ensures { Small result (map_at bytes.now at) }
{
    usize::from(maps::read(bytes, at))
}

// A word with its map, or a byte of 128 or more: the offset behind it, and the map, which has a bit for each term below. It is 0
// for what is no word, and where the map is missing.
#[derive(Drop)]
struct Node {
    end: usize,
    map: u8,
}

// What stands at an offset.
fn node_at(bytes: &[u8], at: usize) -> Node
    requires { at < length bytes.now }
    ensures { NodeEnds bytes.now at result.end result.map }
{
    let next = at + 1;
    if bytes[at] < 128 && next < bytes.len() {
        return Node {
            end: next + maps::BYTES,
            map: maps::read(bytes, next),
        };
    }
    Node { end: next, map: 0 }
}

// Below this the bits of the terms that are due can move up by a map.
const ROOM: u64 = 1 << 56;

// The terms that are due, a bit for each, without the next one: the lowest bit falls.
fn passed(due: u64) -> u64
    requires { 0 < due }
    ensures { ones result + 1 ≡ ones due }
{
    due & (due - 1)
}

// The offset behind the terms that are due from an offset on, one for each bit of `terms` that stands; that behind the bytes if
// they end sooner. It recurses over the levels of the terms, of which accepted ones have at most 32.
fn pass_terms(bytes: &[u8], from: usize, terms: u64) -> usize
    requires { from ≤ length bytes.now }
    ensures { result ≡ from + due_size (drop from bytes.now) (ones terms) }
{
    // Kept: a node takes one byte or two, and those below it more, so no iterator counts the offset, which is the answer.
    let mut at = from;
    let mut due = terms;
    while due != 0 {
        if bytes.len() <= at {
            return at;
        }
        let node = node_at(bytes, at);
        let map = node.map;
        at = node.end;
        due = passed(due);
        if map != 0 {
            at = pass_terms(bytes, at, map as u64);
        }
    }
    at
}

// How many bytes the term at the front takes. No ones are counted: a bit stands for each term that is due, and a word's map, which
// has eight, goes into the lowest byte; bits that are there move up. Where these have no room, behind eight words with written
// places or more, the terms are passed one by one.
fn front_size(bytes: &[u8]) -> usize
    ensures { result ≡ due_size bytes.now 1 }
{
    // Kept: a node takes one byte or two, so no iterator counts the offset, which is the answer.
    let mut at = 0;
    let mut due = 1u64;
    while at < bytes.len() {
        if due == 0 {
            return at;
        }
        let node = node_at(bytes, at);
        let map = node.map;
        at = node.end;
        due = passed(due);
        if map != 0 {
            let below = map as u64;
            if due % 256 == 0 {
                due += below;
            } else if due < ROOM {
                due = due * 256 + below;
            } else {
                return pass_terms(bytes, pass_terms(bytes, at, below), due);
            }
        }
    }
    at
}

// How many bytes the term at the front of some bytes takes. Bytes from the 65,536th on are not looked at.
pub fn term_size(bytes: &[u8]) -> usize
    ensures { result ≡ term_size bytes.now }
{
    front_size(&bytes[..bytes.len().min(65536)])
}

// How many bytes the entry at the front of a listing takes: its kind, and the term behind it.
pub fn entry_size(listing: &[u8]) -> usize
    ensures { result ≡ entry_size listing.now }
{
    match listing {
        [] => 0,
        [_, term @ ..] => 1 + front_size(term),
    }
}
