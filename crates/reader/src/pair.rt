// A pattern and a situation, read under an accepted vocabulary.
ghost use Rattle.std.specs.Prelude.{◌≡◌, ◌+◌, ◌<◌, ◌≤◌};
ghost use Rattle.signature.specs.Tables.{vocabulary_in};
ghost use Rattle.reader.specs.Pairs.{Chosen, PartRead, PartsRead, SecondRead, BothRead};
ghost use Rattle.reader.specs.declared.pair.PairRefusal.TheVariants.{Vocabulary};

use crate::refusal::TermRefusal;
use crate::whole::Extent;
use crate::words::Words;
use crate::{filling, whole};
use signature::VocabularyRefusal;

// Why a vocabulary, a pattern or a situation under it is refused, or that the situation is not complete: document 01, lines 1 to 16.
#[derive(Clone, Copy)]
pub enum PairRefusal {
    Vocabulary(VocabularyRefusal),
    First(TermRefusal),
    Second(TermRefusal),
    Incomplete(usize),
}

impl From<VocabularyRefusal> for PairRefusal {
    ghost from_gives = { λ why r. r ≡ Vocabulary why };

    fn from(why: VocabularyRefusal) -> PairRefusal {
        PairRefusal::Vocabulary(why)
    }
}

// Whether so many bytes from an offset on are a complete term of a kind, which at a name of a pattern with that deepest level
// does not reach below level 32.
fn part_stands<'a>(
    w: Words<'a>,
    s: &[u8],
    from: usize,
    bytes: usize,
    kind: u8,
    deepest: usize,
) -> bool
    requires { (from < 65536) × (bytes < 65536) × (deepest ≤ 32) }
    ensures { PartRead w.entry.v.now s.now from bytes kind deepest result }
{
    from <= s.len()
        && match filling::read_value(w, s, from, kind) {
            Err(_) => false,
            Ok(value) => value.end == from + bytes && deepest + value.levels as usize <= 33,
        }
}

// Whether the span of each name of a pattern is such a part of the situation, by the table of the pattern's names.
fn read_parts<'a>(
    w: Words<'a>,
    s: &[u8],
    names: &[u16; 64],
    spans: &[u16; 128],
    deepest: usize,
) -> bool
    requires { deepest ≤ 32 }
    ensures { PartsRead w.entry.v.now s.now names.now spans.now deepest result }
{
    for n in 0..64 {
        let kind = names[n];
        if 255 < kind {
            continue;
        }
        let from = spans[2 * n] as usize;
        let bytes = spans[2 * n + 1] as usize;
        if !part_stands(w, s, from, bytes, kind as u8, deepest) {
            return false;
        }
    }
    true
}

// Whether a situation of so many bytes is read by its parts: it agrees with a pattern that has words, none of them with a short
// map. A situation of few bytes is sooner read as a whole, unless it is the pattern itself.
fn by_parts(agreed: bool, pattern: Extent, bytes: usize) -> bool
    ensures { Chosen agreed pattern bytes result }
{
    agreed
        && !pattern.short
        && pattern.words != 0
        && bytes <= 4096
        && (pattern.complete || 256 <= bytes)
}

// Reads a situation, which must be complete.
fn read_second<'a>(w: Words<'a>, second: &[u8]) -> Result<(), PairRefusal>
    ensures { SecondRead (vocabulary_in w.entry.v.now) second.now result }
{
    match whole::read(w, second) {
        Err(why) => Err(PairRefusal::Second(why)),
        Ok(y) => {
            if !y.complete {
                return Err(PairRefusal::Incomplete(y.gap));
            }
            Ok(())
        }
    }
}

// Reads a pattern and then a situation. The spans count where both are said to agree.
pub(crate) fn read<'a>(
    w: Words<'a>,
    first: &[u8],
    second: &[u8],
    spans: &[u16; 128],
    agreed: bool,
) -> Result<(), PairRefusal>
    ensures { BothRead (vocabulary_in w.entry.v.now) first.now second.now spans.now agreed result }
{
    let mut names = [65535u16; 64];
    match whole::read_named(w, first, &mut names) {
        Err(why) => Err(PairRefusal::First(why)),
        Ok(x) => {
            if by_parts(agreed, x, second.len()) {
                if x.complete {
                    return Ok(());
                }
                if read_parts(w, second, &names, spans, x.deepest) {
                    return Ok(());
                }
            }
            read_second(w, second)
        }
    }
}
