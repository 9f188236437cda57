// One pattern of a book against an area of entries, where kinds may have no complete situation: a pattern that no situation
// fits leaves the entries as they are. The tables are those of the words' settled result kinds and of their siblings by these.
#![tactic(auto)]

ghost use Rattle.std.specs.Prelude.{◌≡◌, length};
ghost use Rattle.takes.specs.Told.{fruitful_by, whole_count};
ghost use Rattle.takes.specs.Taking.{LeavesArea, TakesPattern};

use others::Full;
use strikes::Left;

// Whether every word of a pattern is one that some complete situation has.
fn is_fruitful(pattern: &[u8], words: usize, settled: &[u8; 96], missing: Option<usize>) -> bool
    ensures { result ≡ fruitful_by words settled.now missing pattern.now }
{
    match missing {
        Some(empty) => productive::fruitful(pattern, words, settled, empty),
        None => true,
    }
}

// How many entries a kind has before any pattern: one, 255, or none where no complete situation has the kind.
pub fn whole(kind: u8, words: usize, settled: &[u8; 96], missing: Option<usize>) -> usize
    ensures { result ≡ whole_count words settled.now missing kind }
{
    match missing {
        Some(empty) => productive::inhabited(kind as usize, words, settled, empty) as usize,
        None => 1,
    }
}

// Copies an area, which holds so many entries.
fn leave(area: &[u8], entries: usize, to: &mut [u8]) -> Result<Left, Full>
    ensures { LeavesArea area.now entries to.old to.new result }
{
    if to.len() < area.len() {
        return Err(Full);
    }
    slices::copy(area, to);
    Ok(Left {
        bytes: area.len(),
        entries,
    })
}

// Puts what the entries of an area leave behind a pattern at the front of the slice, one directly behind the other: all of them
// where no situation fits the pattern. The marks and the copy are for the work.
pub fn take_pattern(
    area: &[u8],
    entries: usize,
    pattern: &[u8],
    marks: &mut [u32],
    copy: &mut [u8],
    siblings: &[u8; 384],
    settled: &[u8; 96],
    words: usize,
    missing: Option<usize>,
    to: &mut [u8],
) -> Result<Left, Full>
    ensures { TakesPattern area.now entries pattern.now (length marks.old) (length copy.old) siblings.now settled.now words missing to.old to.new result }
{
    if is_fruitful(pattern, words, settled, missing) {
        return strikes::strike(area, pattern, marks, copy, siblings, to);
    }
    leave(area, entries, to)
}
