// A word of the pattern is passed, and where the entry is open the other words of its kind have their entries.
ghost use Rattle.std.specs.Prelude.{◌≡◌, ◌+◌, ◌≤◌, length, drop};
ghost use Rattle.extents.specs.Extents.{most_extent};
ghost use Rattle.cuts.specs.Walking.{passed, Moves};
ghost use Rattle.cuts.specs.Own.{behind_of, ListsOwn};

use others::{Filled, Full};

// How far a cut has come: the end of what both allow, in the copy; the bytes of the entry and of the pattern that are passed;
// the bytes written, and the entries that are still to be written.
#[derive(Clone, Copy)]
pub(crate) struct Walk {
    pub(crate) at: usize,
    pub(crate) entry: usize,
    pub(crate) pattern: usize,
    pub(crate) written: usize,
    pub(crate) todo: usize,
}

// The walk behind a word, of which the entry has so many bytes, and behind the entries of the other words.
fn behind(w: Walk, size: usize, answer: Result<Filled, Full>) -> Result<Walk, Full>
    requires at_le_most_extent { w.at ≤ most_extent }
    requires size_bound { w.entry + size ≤ most_extent }
    requires pattern_le_most_extent { w.pattern ≤ most_extent }
    ensures { result ≡ behind_of w size answer }
{
    let filled = answer?;
    Ok(Walk {
        at: w.at + maps::NODE,
        entry: w.entry + size,
        pattern: w.pattern + maps::NODE,
        written: filled.bytes,
        todo: filled.due,
    })
}

// Passes the word f, of which the entry has so many bytes. Where the entry is open the entries of the other words of f's kind are
// written.
pub(crate) fn write_own(
    copy: &[u8],
    w: Walk,
    blank: bool,
    entry: &[u8],
    f: usize,
    size: usize,
    siblings: &[u8; 384],
    out: &mut [u8],
) -> Result<Walk, Full>
    requires at_in_bounds { w.at ≤ length copy.now }
    requires copy_len_bound { length copy.now ≤ most_extent }
    requires size_in_bounds { w.entry + size ≤ length entry.now }
    requires len_bound { length entry.now ≤ most_extent }
    requires pattern_le_most_extent { w.pattern ≤ most_extent }
    requires written_in_bounds { w.written ≤ length out.old }
    ensures moves { Moves (passed w size) (length out.old) result }
    ensures lists_own { ListsOwn copy.now w.at blank (drop w.entry entry.now) f siblings.now w out.old out.new result }
{
    if blank {
        let tail = &entry[w.entry..];
        let answer = others::write_others(copy, w.at, f, siblings, tail, w.written, w.todo, out);
        return behind(w, size, answer);
    }
    let none = Filled {
        bytes: w.written,
        due: w.todo,
    };
    behind(w, size, Ok(none))
}
