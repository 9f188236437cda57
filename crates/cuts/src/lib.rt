// An entry's leftovers against a pattern that it shares situations with: document 02 (ii), "replaced by its own leftovers
// against the pattern".
#![tactic(auto)]

ghost use Rattle.std.specs.Prelude.{◌≡◌, cond, length};
ghost use Rattle.cuts.specs.Walking.{OutOfReach};
ghost use Rattle.cuts.specs.Calls.{CutsEntry};

mod own;
mod walk;

use crate::own::Walk;
use others::Full;

// Whether an entry or a pattern is too short, the copy too small for one of them or too large, or the bytes written are not all
// in the slice.
fn out_of_reach(copy: usize, entry: usize, pattern: usize, n: usize, room: usize) -> bool
    ensures { OutOfReach copy entry pattern n room result }
{
    entry < 2 || pattern < 2 || copy < entry || copy < pattern || 65536 < copy || room < n
}

// How many bytes of an entry are passed at its root: all of 255.
fn beginning(size: usize, blank: bool) -> usize
    ensures { result ≡ cond blank size 1 }
{
    if blank { size } else { 1 }
}

// Puts the entries by which an entry is replaced behind the first n bytes, and says how many bytes are there then; there are `todo`
// of them. The copy is for the bytes that they begin with.
pub fn cut_entry(
    copy: &mut [u8],
    entry: &[u8],
    pattern: &[u8],
    siblings: &[u8; 384],
    todo: usize,
    n: usize,
    out: &mut [u8],
) -> Result<usize, Full>
    ensures { CutsEntry entry.now pattern.now siblings.now (length copy.old) todo n out.old out.new result }
{
    if todo == 0 {
        return Ok(n);
    }
    if out_of_reach(copy.len(), entry.len(), pattern.len(), n, out.len()) {
        return Err(Full);
    }
    copy[0] = entry[0];
    let blank = 127 < entry[1];
    let w = Walk {
        at: 1,
        entry: beginning(entry.len(), blank),
        pattern: 1,
        written: n,
        todo,
    };
    let end = walk::cut_node(copy, w, blank, entry, pattern, siblings, 32, out)?;
    Ok(end.written)
}
