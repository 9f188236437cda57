// What the entries of an area leave against one pattern.
#![tactic(auto)]

ghost use Rattle.std.specs.Prelude.{◌≤◌, ◌<◌, length};
ghost use Rattle.strikes.specs.Calls.{StrikesArea};
ghost use Rattle.strikes.specs.Striking.{Keeps, StrikesEntry, EntryEnds, StrikesNoted};

use others::Full;

// So many bytes are there now, and so many entries more.
#[derive(Clone, Copy)]
pub struct Left {
    pub bytes: usize,
    pub entries: usize,
}

// Keeps an entry: it is put behind the first n bytes.
fn keep(entry: &[u8], n: usize, out: &mut [u8]) -> Result<Left, Full>
    ensures { Keeps entry.now n out.old out.new result }
{
    if out.len() < n {
        return Err(Full);
    }
    if out.len() - n < entry.len() {
        return Err(Full);
    }
    slices::copy(entry, &mut out[n..]);
    Ok(Left {
        bytes: n + entry.len(),
        entries: 1,
    })
}

// What an entry leaves against a pattern: itself where they share nothing.
fn strike_entry(
    entry: &[u8],
    pattern: &[u8],
    marks: &[u32],
    copy: &mut [u8],
    siblings: &[u8; 384],
    n: usize,
    out: &mut [u8],
) -> Result<Left, Full>
    requires in_bounds { 1 ≤ length entry.now }
    requires in_bounds_2 { 2 ≤ length pattern.now }
    ensures { StrikesEntry entry.now pattern.now marks.now siblings.now (length copy.old) n out.old out.new result }
{
    // A name or 255 fits every situation.
    if 127 < pattern[1] {
        return Ok(Left {
            bytes: n,
            entries: 0,
        });
    }
    match meetings::meet(&entry[1..], &pattern[1..], marks) {
        None => keep(entry, n, out),
        Some(entries) => {
            let bytes = cuts::cut_entry(copy, entry, pattern, siblings, entries, n, out)?;
            Ok(Left { bytes, entries })
        }
    }
}

// The offset behind the entry at an offset: its kind byte and a term.
fn entry_end(area: &[u8], at: usize) -> usize
    requires { at < length area.now }
    ensures { EntryEnds area.now at result }
{
    at + 1 + extents::term_size(&area[at + 1..])
}

// What the entries of an area leave against a pattern whose marks are noted. No more entries fit than the slice has bytes.
fn strike_area(
    area: &[u8],
    pattern: &[u8],
    marks: &[u32],
    copy: &mut [u8],
    siblings: &[u8; 384],
    out: &mut [u8],
) -> Result<Left, Full>
    requires { 2 ≤ length pattern.now }
    ensures { StrikesNoted area.now pattern.now marks.now siblings.now (length copy.old) out.old out.new result }
{
    // Kept: entries differ in size, so no iterator counts the offset, and only a walk over its bytes finds where one ends.
    let mut at = 0;
    let mut n = 0;
    let mut entries = 0;
    while at < area.len() {
        let end = entry_end(area, at);
        let left = strike_entry(&area[at..end], pattern, marks, copy, siblings, n, out)?;
        if out.len() - entries < left.entries {
            return Err(Full);
        }
        n = left.bytes;
        entries += left.entries;
        at = end;
    }
    Ok(Left { bytes: n, entries })
}

// Puts what the entries of an area leave against a pattern at the front of the slice, one directly behind the other. The marks
// and the copy are for the work; the marks are of no use where the pattern is longer than they are.
pub fn strike(
    area: &[u8],
    pattern: &[u8],
    marks: &mut [u32],
    copy: &mut [u8],
    siblings: &[u8; 384],
    out: &mut [u8],
) -> Result<Left, Full>
    ensures { StrikesArea area.now pattern.now (length marks.old) siblings.now (length copy.old) out.old out.new result }
{
    if pattern.len() < 2 {
        return Err(Full);
    }
    marks::mark(&pattern[1..], siblings, marks);
    strike_area(area, pattern, marks, copy, siblings, out)
}
