// Whether an entry and a pattern share a situation, and by how many entries the entry is then replaced.
#![tactic(auto)]

ghost use Rattle.std.specs.Prelude.{◌≡◌, ◌+◌, ◌≤◌, ◌<◌, eqb, length, get_or};
ghost use Rattle.meetings.specs.Passing.{passed_if};
ghost use Rattle.meetings.specs.Walking.{meet_term, meet_word, meeting};
ghost use Rattle.meetings.specs.Inside.{NoteAt, Walks, Met};

// The offset behind the term at an offset, where a bit says that a term is due there.
fn pass(bytes: &[u8], at: usize, bit: usize) -> usize
    requires { at ≤ length bytes.now + 1 }
    ensures { result ≡ passed_if (eqb bit 1) bytes.now at }
{
    if bit == 1 && at < bytes.len() {
        return at + extents::term_size(&bytes[at..]);
    }
    at
}

// The note at an offset.
fn mark_at(marks: &[u32], at: usize) -> usize
    ensures { NoteAt result (get_or marks.now at 0) }
{
    marks.get(at).map_or(0, |mark| *mark as usize)
}

// How far a walk over an entry and a pattern has come: the offset in the entry, and so many entries.
#[derive(Clone, Copy)]
struct Reached {
    at: usize,
    entries: usize,
}

// Walks over the terms at two offsets, with so many levels left; None where they share nothing.
#[cycle(meet_places_meet_term)]
fn meet_term(
    entry: &[u8],
    i: usize,
    pattern: &[u8],
    j: usize,
    marks: &[u32],
    left: usize,
) -> Option<Reached>
    requires { Walks entry.now i pattern.now j left }
    ensures { Met (meet_term left entry.now pattern.now marks.now i j) (length entry.now) i result }
{
    if left == 0 {
        return None;
    }
    let p = extents::byte(pattern, j);
    if 127 < p {
        return Some(Reached {
            at: pass(entry, i, 1),
            entries: 0,
        });
    }
    let e = extents::byte(entry, i);
    if 127 < e {
        return Some(Reached {
            at: pass(entry, i, 1),
            entries: mark_at(marks, j) / 8192,
        });
    }
    if e != p {
        return None;
    }
    meet_places(entry, i, pattern, j, marks, left - 1)
}

// Walks over the places of the word that stands at two offsets, the lowest first.
#[cycle(meet_places_meet_term)]
fn meet_places(
    entry: &[u8],
    i: usize,
    pattern: &[u8],
    j: usize,
    marks: &[u32],
    left: usize,
) -> Option<Reached>
    requires walks { Walks entry.now i pattern.now j (left + 1) }
    requires i_in_bounds { i < length entry.now }
    requires j_in_bounds { j < length pattern.now }
    ensures { Met (meet_word (meet_term left entry.now pattern.now marks.now) entry.now pattern.now marks.now i j) (length entry.now) i result }
{
    let mut ours = extents::map(entry, i + 1);
    let mut theirs = extents::map(pattern, j + 1);
    let mut at = i + maps::NODE;
    let mut from = j + maps::NODE;
    let mut entries = 0;
    // Kept: the places of two maps are passed side by side until none is left, so no index is counted.
    while ours + theirs != 0 {
        let here = ours % 2;
        let there = theirs % 2;
        ours /= 2;
        theirs /= 2;
        if there == 0 {
            at = pass(entry, at, here);
        } else {
            let mark = mark_at(marks, from);
            if here == 0 {
                entries += mark / 8192;
                from += mark % 8192;
            } else {
                let below = meet_term(entry, at, pattern, from, marks, left)?;
                at = below.at;
                from += mark % 8192;
                entries += below.entries;
            }
        }
    }
    Some(Reached { at, entries })
}

// By how many entries an entry's term is replaced that shares a situation with a pattern's term, whose marks are given; None where
// they share none. Bytes from the 4,096th on are not looked at.
pub fn meet(entry: &[u8], pattern: &[u8], marks: &[u32]) -> Option<usize>
    ensures { result ≡ meeting entry.now pattern.now marks.now }
{
    let e = entry.len().min(4096);
    let p = pattern.len().min(4096);
    let end = meet_term(&entry[..e], 0, &pattern[..p], 0, marks, 32)?;
    Some(end.entries)
}
