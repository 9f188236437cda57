// An entry for each other word of a kind.
#![tactic(auto)]

ghost use Rattle.std.specs.Prelude.{◌≡◌, ◌+◌, ◌%◌, ◌≤◌, ◌<◌, length, get_or, take};
ghost use Rattle.wire.specs.Map.{map_bytes};
ghost use Rattle.slices.specs.Written.{Written};
ghost use Rattle.others.specs.Others.{entry_of, NextWord, Exceeds, LengthsFail, WritesSiblings, BytesInside};

// So many bytes are there now, and so many entries are still due.
#[derive(Clone, Copy)]
pub struct Filled {
    pub bytes: usize,
    pub due: usize,
}

// An entry is too long or has no room.
#[derive(Clone, Copy)]
pub struct Full;

// Writes an entry: the first n bytes of the copy, a word's number, an empty map and the tail.
fn write_entry(copy: &[u8], n: usize, word: u8, tail: &[u8], out: &mut [u8])
    requires n_in_bounds { n ≤ length copy.now }
    requires tail_in_bounds { n + (1 + map_bytes) + length tail.now ≤ length out.old }
    ensures { Written (entry_of (take n copy.now) tail.now word) out.old (n + (1 + map_bytes) + length tail.now) out.new }
{
    slices::copy(&copy[..n], &mut out[..n]);
    out[n] = word;
    // The empty map. It is written for each entry, so without a test for room.
    out[n + 1] = 0;
    slices::copy(tail, &mut out[n + 2..]);
}

// The lowest word of the result kind of f, by the table.
fn first_word(siblings: &[u8; 384], f: usize) -> usize
    ensures { result ≡ get_or siblings.now (128 + f % 128) 0 }
{
    siblings[128 + f % 128] as usize
}

// The next word of the result kind of g, by the table, 255 for none. It is a higher one, whatever the table has.
// Kept: 255 and not an Option, as the table of siblings that the contract of `siblings` fixes has it for none.
fn next_word(siblings: &[u8; 384], g: usize) -> usize
    requires { g < 96 }
    ensures { NextWord siblings.now g result }
{
    let next = siblings[g] as usize;
    if g < next { next } else { 255 }
}

// Whether no entry is due, or the entry is too long or has no room.
fn exceeds(todo: usize, size: usize, room: usize) -> bool
    ensures { Exceeds todo size room result }
{
    todo == 0 || 4096 < size || room < size
}

// Whether the copy is too short or too long, the tail too long, or the bytes written are not all in the slice.
fn out_of_reach(at: usize, copy: usize, tail: usize, n: usize, room: usize) -> bool
    ensures { LengthsFail at copy tail n room result }
{
    copy < at || 65536 < copy || 65536 < tail || room < n
}

// Writes an entry for every other word of the result kind of f, behind the first n bytes: the first bytes of the copy, the word
// and the tail. So many entries are due, these among them.
pub fn write_others(
    copy: &[u8],
    at: usize,
    f: usize,
    siblings: &[u8; 384],
    tail: &[u8],
    n: usize,
    todo: usize,
    out: &mut [u8],
) -> Result<Filled, Full>
    ensures bytes_inside { BytesInside (length out.old) result }
    ensures writes_siblings { WritesSiblings copy.now at f siblings.now tail.now n todo out.old out.new result }
{
    if out_of_reach(at, copy.len(), tail.len(), n, out.len()) {
        return Err(Full);
    }
    let size = at + maps::NODE + tail.len();
    let mut n = n;
    let mut todo = todo;
    // Kept: the words of a kind are a chain in the table, so the next one is read there and not counted.
    let mut h = first_word(siblings, f);
    while h < 96 {
        let g = h;
        h = next_word(siblings, g);
        if g != f {
            if exceeds(todo, size, out.len() - n) {
                return Err(Full);
            }
            write_entry(copy, at, g as u8, tail, &mut out[n..]);
            n += size;
            todo -= 1;
        }
    }
    Ok(Filled {
        bytes: n,
        due: todo,
    })
}
