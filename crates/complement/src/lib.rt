// Document 01's call list: the leftovers of a pattern.
#![tactic(auto)]

ghost use Rattle.std.specs.Prelude.{◌≡◌, ◌∷◌, ◌++◌, ◌+◌, ◌≤◌, ◌<◌, ◌%◌, ◌^◌, suc, length, get_or, take, drop};
ghost use Rattle.wire.specs.Map.{map_bits, map_bytes, write_map};
ghost use Rattle.wire.specs.Leftovers.{ListPromise};
ghost use Rattle.wire.specs.Effect.{HasEffect};
ghost use Rattle.wire.specs.ListComputed.{listed};
ghost use Rattle.kinds.specs.Kinds.{kind_in};
ghost use Rattle.complement.specs.Answers.{refusal_of, list_numbers};
ghost use Rattle.complement.specs.Calls.{Patterned, HasRoom, WritesEntries, ListsLinear};
ghost use Rattle.complement.specs.Sifting.{SettledPattern, MissingKind, ListsWhole, ListsSettled, ListsPattern};
ghost use Rattle.complement.specs.Entering.{Byte, OthersAt, ListsOthers, TermAt, ListsTerm, PlacesAt, ListsPlaces};

use reader::{CheckRefusal, TermRefusal};
use signature::VocabularyRefusal;
use sizes::Size;

// Why there is no listing: document 01, lines 1 to 5 and 7 to 15, 18 and 20.
#[derive(Clone, Copy)]
pub enum ListRefusal {
    Vocabulary(VocabularyRefusal),
    Pattern(TermRefusal),
    Repeated(usize),
    NoRoom(usize),
}

impl From<CheckRefusal> for ListRefusal {
    ghost from_gives = { λ why r. r ≡ refusal_of why };

    fn from(why: CheckRefusal) -> ListRefusal {
        match why {
            CheckRefusal::Vocabulary(why) => ListRefusal::Vocabulary(why),
            CheckRefusal::Term(why) => ListRefusal::Pattern(why),
        }
    }
}

// The lowest bits of a map, up to bit b.
fn kept(map: u8, b: usize) -> u8
    requires { b < map_bits }
    ensures { result ≡ map % 2 ^ suc b }
{
    (map as usize % (2usize << b)) as u8
}

// Writes the first n bytes of the copy, a word's number and an empty map.
fn write_entry(copy: &[u8], n: usize, word: u8, out: &mut [u8])
    requires n_in_bounds { n ≤ length copy.now }
    requires map_bytes_in_bounds { n + (1 + map_bytes) ≤ length out.old }
    ensures { out.new ≡ (take n copy.now ++ (word ∷ write_map 0)) ++ drop (n + (1 + map_bytes)) out.old }
{
    slices::copy(&copy[..n], &mut out[..n]);
    out[n] = word;
    // The empty map. It is written for each entry, so without a test for room.
    out[n + 1] = 0;
}

// The lowest word of the result kind of f, by the tables. Kept: 255 for none and not an Option, as `Chained` of `kinds` has it.
fn lowest(f: usize, results: &[u8; 96], chains: &[u8; 112]) -> usize
    requires { f < 96 }
    ensures { Byte (get_or chains.now (96 + kind_in results.now f) 0) result }
{
    let kind = results[f] as usize % 16;
    chains[96 + kind] as usize
}

// An entry for every other word of the result kind of f, from its lowest word on, each into the rest of the lent slice behind
// the one before it.
// Kept: `others::write_others` tests the room for each entry and writes a tail; here all are measured before, so one for both would
// take a test and a tail that stand empty here.
fn write_others(
    copy: &[u8],
    at: usize,
    f: usize,
    first: usize,
    chains: &[u8; 112],
    out: &mut [u8],
) -> usize
    requires { OthersAt copy.now at f first chains.now (length out.old) }
    ensures { ListsOthers copy.now at f first chains.now out.old result out.new }
{
    let mut n = 0;
    // Kept: the words of a kind are a chain in the table, so the next one is read there and not counted.
    let mut h = first;
    while h < 96 {
        let g = h;
        h = chains[g] as usize;
        if g != f {
            write_entry(copy, at, g as u8, &mut out[n..]);
            n = n + at + maps::NODE;
        }
    }
    n
}

// How far a listing has come: the offset behind a term in the copy, and the bytes written.
#[derive(Drop)]
struct Progress {
    at: usize,
    written: usize,
}

// The listing of the term at an offset of the copy, with so many levels left. The maps of the words above it
// keep only the bits up to this term.
#[cycle(list_places_list_term)]
fn list_term(
    copy: &mut [u8],
    at: usize,
    chains: &[u8; 112],
    results: &[u8; 96],
    left: usize,
    out: &mut [u8],
) -> Progress
    requires { TermAt copy.old at results.now chains.now left (length out.old) }
    ensures { ListsTerm copy.old at results.now chains.now left out.old copy.new out.new result.at result.written }
{
    let first = copy[at];
    if 127 < first {
        let end = at + 1;
        return Progress {
            at: end,
            written: 0,
        };
    }
    let map = maps::read(copy, at + 1);
    let f = first as usize;
    let n = write_others(copy, at, f, lowest(f, results, chains), chains, out);
    let below = list_places(copy, at, map, chains, results, left, &mut out[n..]);
    let end = below.at;
    let written = n + below.written;
    Progress { at: end, written }
}

// The listing of the terms of a word's written bits, the lowest first, each into the rest of the lent slice behind
// the one before it. The word's map keeps only the bits up to each term in turn; at the highest it is the pattern's again.
#[cycle(list_places_list_term)]
fn list_places(
    copy: &mut [u8],
    at: usize,
    map: u8,
    chains: &[u8; 112],
    results: &[u8; 96],
    left: usize,
    out: &mut [u8],
) -> Progress
    requires { PlacesAt copy.old at map results.now chains.now left (length out.old) }
    ensures { ListsPlaces copy.old at map results.now chains.now left out.old copy.new out.new result.at result.written }
{
    let mut n = 0;
    let mut next = at + maps::NODE;
    let mut b = 0;
    let mut bits = map as usize;
    while bits != 0 {
        let place = b;
        let bit = bits % 2;
        b += 1;
        bits /= 2;
        if bit == 1 {
            maps::write(kept(map, place), copy, at + 1);
            let here = list_term(copy, next, chains, results, left - 1, &mut out[n..]);
            next = here.at;
            n += here.written;
        }
    }
    Progress {
        at: next,
        written: n,
    }
}

// Lists a pattern by a copy of it, into a lent slice with room for the entries.
fn list_in(copy: &mut [u8], pattern: &[u8], words: usize, results: &[u8; 96], out: &mut [u8])
    requires pattern_in_bounds { length pattern.now ≤ length copy.old }
    requires copy_len_bound { length copy.old ≤ 4096 }
    requires patterned { Patterned pattern.now words results.now }
    requires has_room { HasRoom pattern.now words results.now (length out.old) }
    ensures { WritesEntries pattern.now words results.now out.old out.new }
{
    let chains = kinds::chain(words, results);
    slices::copy(pattern, copy);
    let _ = list_term(copy, 1, &chains, results, 32, out);
}

// Lists a pattern into a lent slice with room for the entries. Most patterns are short, and a small copy is sooner set up.
fn list_copied(pattern: &[u8], words: usize, results: &[u8; 96], out: &mut [u8])
    requires patterned { Patterned pattern.now words results.now }
    requires has_room { HasRoom pattern.now words results.now (length out.old) }
    ensures { WritesEntries pattern.now words results.now out.old out.new }
{
    if pattern.len() <= 128 {
        let mut copy = [0u8; 128];
        list_in(&mut copy, pattern, words, results, out);
        return;
    }
    let mut copy = [0u8; 4096];
    list_in(&mut copy, pattern, words, results, out);
}

// The listing of a pattern that is accepted and in which no name stands twice.
fn list_linear(
    pattern: &[u8],
    words: usize,
    results: &[u8; 96],
    out: &mut [u8],
) -> Result<Size, ListRefusal>
    requires { Patterned pattern.now words results.now }
    ensures { ListsLinear pattern.now words results.now out.old out.new (list_numbers result) }
{
    let size = sizes::measure(pattern, words, results);
    if out.len() < size.bytes {
        return Err(ListRefusal::NoRoom(size.bytes));
    }
    if size.bytes != 0 {
        list_copied(pattern, words, results, out);
    }
    Ok(size)
}

// The listing of a pattern that no complete situation fits: 255 of its kind, or no entry where the kind has no situation.
fn list_whole(kind: u8, some: bool, out: &mut [u8]) -> Result<Size, ListRefusal>
    ensures { ListsWhole kind some out.old out.new (list_numbers result) }
{
    if !some {
        return Ok(Size {
            entries: 0,
            bytes: 0,
        });
    }
    if out.len() < 2 {
        return Err(ListRefusal::NoRoom(2));
    }
    out[0] = kind;
    out[1] = 255;
    Ok(Size {
        entries: 1,
        bytes: 2,
    })
}

// The listing of a pattern that is accepted and in which no name stands twice, where `empty` is the lowest kind without
// complete situations.
fn list_settled(
    pattern: &[u8],
    words: usize,
    settled: &[u8; 96],
    empty: usize,
    out: &mut [u8],
) -> Result<Size, ListRefusal>
    requires { MissingKind pattern.now words settled.now empty }
    ensures { ListsSettled pattern.now words settled.now empty out.old out.new (list_numbers result) }
{
    if productive::fruitful(pattern, words, settled, empty) {
        return list_linear(pattern, words, settled, out);
    }
    let kind = pattern[0];
    let some = productive::inhabited(kind as usize, words, settled, empty);
    list_whole(kind, some, out)
}

// The listing of a pattern that is accepted. Where every kind has complete situations its words need no look.
fn list_pattern(
    pattern: &[u8],
    words: usize,
    settled: &[u8; 96],
    missing: Option<usize>,
    out: &mut [u8],
) -> Result<Size, ListRefusal>
    requires { SettledPattern pattern.now words settled.now missing }
    ensures { ListsPattern pattern.now words settled.now missing out.old out.new (list_numbers result) }
{
    match repeats::first_repeat(pattern, words) {
        Some(q) => Err(ListRefusal::Repeated(q)),
        None => match missing {
            None => list_linear(pattern, words, settled, out),
            Some(empty) => list_settled(pattern, words, settled, empty, out),
        },
    }
}

// Writes the leftovers of a pattern into the lent slice, one directly behind the other, and says how many entries and bytes
// they are. A refusal leaves the slice as it was.
pub fn list(vocabulary: &[u8], pattern: &[u8], out: &mut [u8]) -> Result<Size, ListRefusal>
    ensures list_promise { ListPromise vocabulary.now pattern.now out.old out.new (list_numbers result) }
    ensures has_effect { HasEffect (listed vocabulary.now pattern.now out.old) (list_numbers result) out.new }
{
    let mut settled = [0u8; 96];
    let missing = reader::load_pattern(vocabulary, pattern, &mut settled)?;
    list_pattern(pattern, vocabulary[1] as usize, &settled, missing, out)
}
