// The part of a situation that each name of a pattern covers.
#![tactic(auto)]

ghost use Rattle.std.specs.Prelude.{◌≡◌, ◌+◌, ◌*◌, ◌/◌, ◌<◌, ◌≤◌, length, get_or, replicate};
ghost use Rattle.std.specs.Int.Count.{ones};
ghost use Rattle.wire.specs.Effect.{HasEffect};
ghost use Rattle.wire.specs.MatchComputed.{matched};
ghost use Rattle.spans.specs.Answers.{spans_numbers};
ghost use Rattle.nodes.specs.Same.{SameNodes};
ghost use Rattle.spans.specs.Frames.{most_offset, rest, map_at, places_in, written_in, TwoMaps};
ghost use Rattle.spans.specs.Spans.{with_span, Standing, ends, Covers, KnownEnd};
ghost use Rattle.spans.specs.Walking.{InputsRead, Walked, Going, AtSharedWord, WordWalked, AtPlace, PlaceTold};
ghost use Rattle.spans.specs.Front.{Paused};

use inputs::InputsRefusal;

mod front;

// The map of the word at an offset, 0 where it is missing.
fn map_at(t: &[u8], at: usize) -> u8
    requires { at < most_offset }
    ensures { result ≡ map_at t.now at }
{
    maps::read(t, at + 1)
}

// How many bits of four maps stand.
fn count_four(a: u8, b: u8, c: u8, d: u8) -> usize
    ensures { (result ≡ ones a + ones b + ones c + ones d) × (result ≤ 32) }
{
    u32::from_le_bytes([a, b, c, d]).count_ones() as usize
}

// Where the term that begins at an offset ends: its words' maps say how many more terms are due. Where four are due the
// next four maps are counted in one go. The bytes may be any: an end behind the last one says that they end before.
fn end_of(s: &[u8], at: usize) -> usize
    requires { (at ≤ length s.now) × (length s.now ≤ 4096) }
    ensures { (at < result) × ((a : Standing s.now at) → result ≡ ends a) }
{
    let mut due = maps::count(map_at(s, at)) as usize;
    let mut end = at + maps::NODE;
    // Kept: how many words a turn passes depends on the maps of those before, so no iterator counts them.
    while 0 < due {
        if due < 4 {
            due = due - 1 + maps::count(map_at(s, end)) as usize;
            end += maps::NODE;
        } else {
            let second = end + maps::NODE;
            let third = second + maps::NODE;
            let fourth = third + maps::NODE;
            due = due - 4
                + count_four(
                    map_at(s, end),
                    map_at(s, second),
                    map_at(s, third),
                    map_at(s, fourth),
                );
            end = fourth + maps::NODE;
        }
    }
    end
}

// Notes the part of so many bytes from an offset on for a name.
fn note(spans: &mut [u16; 128], name: usize, at: usize, n: usize)
    requires { (name < 64) × (at ≤ 4096) × (n ≤ 4096) }
    ensures { spans.new ≡ with_span spans.old name at n }
{
    spans[2 * name] = at as u16;
    spans[2 * name + 1] = n as u16;
}

// Where the part that is noted for a name ends, if its bytes stand at an offset too.
fn known_end(s: &[u8], spans: &[u16; 128], name: usize, at: usize) -> Option<usize>
    requires name_bound { (name < 64) × (at ≤ length s.now) × (length s.now ≤ 4096) }
    requires name_in_bounds { get_or spans.now (2 * name) 0 + get_or spans.now (2 * name + 1) 0 ≤ length s.now }
    ensures { KnownEnd s.now spans.now name at result }
{
    let n = usize::from(spans[2 * name + 1]);
    if n == 0 || s.len() - at < n {
        return None;
    }
    let first = usize::from(spans[2 * name]);
    if nodes::equal(&s[first..first + n], &s[at..at + n]) {
        return Some(at + n);
    }
    None
}

// Where the part that a name covers from an offset on ends. The first time it is noted. Later the bytes of that part
// must stand here too, which then end where the part does; it ends nowhere where they do not, or the bytes end before.
fn cover(s: &[u8], spans: &mut [u16; 128], name: usize, at: usize) -> Option<usize>
    requires name_bound { (name < 64) × (at ≤ length s.now) × (length s.now ≤ 4096) }
    requires name_in_bounds { get_or spans.old (2 * name) 0 + get_or spans.old (2 * name + 1) 0 ≤ length s.now }
    ensures { Covers s.now spans.old spans.new name at result }
{
    let n = usize::from(spans[2 * name + 1]);
    if n == 0 {
        let end = end_of(s, at);
        if s.len() < end {
            return None;
        }
        note(spans, name, at, end - at);
        return Some(end);
    }
    known_end(s, spans, name, at)
}

// The places of a word that are due: its written map, and behind it its place map, both shifted past
// the places that are done.
fn frame(written: u8, places: u8) -> u16
    ensures { TwoMaps result written places }
{
    u16::from_le_bytes([written, places])
}

// The frame without its lowest place.
fn passed(frame: u16) -> u16
    ensures { TwoMaps result (written_in frame / 2) (places_in frame / 2) }
{
    let written = frame % 256;
    let places = frame / 256 % 256;
    written / 2 + 256 * (places / 2)
}

// How far a walk has come in the pattern and in the situation.
#[derive(Clone, Copy)]
struct Reached {
    pattern: usize,
    situation: usize,
}

// Passes a place that the pattern writes: a word must be the same word, and a name covers the part. Nothing is said where
// the pattern does not fit.
fn pass_place(p: &[u8], s: &[u8], spans: &mut [u16; 128], i: usize, j: usize) -> Option<Reached>
    requires { AtPlace p.now s.now spans.old i j }
    ensures { PlaceTold p.now s.now spans.old spans.new i j result }
{
    let b = p[i];
    if b < 128 {
        if b != s[j] {
            return None;
        }
        return Some(Reached {
            pattern: i + maps::NODE,
            situation: j + maps::NODE,
        });
    }
    let end = cover(s, spans, usize::from(b) - 128, j)?;
    Some(Reached {
        pattern: i + 1,
        situation: end,
    })
}

// Goes through a word that has open places side by side with the part of the situation that begins with the same word.
// The places of the words around a place are kept in frames. It ends at the pattern's last byte too: behind it only
// open places are due, which take the rest.
fn walk_word(p: &[u8], s: &[u8], spans: &mut [u16; 128], from: usize, at: usize) -> Option<Reached>
    requires inputs_read { InputsRead p.now s.now }
    requires at_shared_word { AtSharedWord p.now s.now spans.old from at }
    ensures { WordWalked p.now s.now spans.new from result }
{
    let mut frames = [0u16; 32];
    let mut due = frame(map_at(p, from), map_at(s, at));
    let mut depth: usize = 1;
    let mut i = from + maps::NODE;
    let mut j = at + maps::NODE;
    // Kept: a turn leaves a word or takes one of its places, and two offsets move apart, so no iterator counts it.
    while 0 < depth && i < p.len() {
        let places = due / 256 % 256;
        if places == 0 {
            depth -= 1;
            due = frames[depth];
        } else {
            let written = due % 2;
            due = passed(due);
            if places % 2 == 1 {
                if written == 0 {
                    j = end_of(s, j);
                } else {
                    let next = pass_place(p, s, spans, i, j)?;
                    if p[i] < 128 {
                        let map = map_at(s, j);
                        if map != 0 {
                            frames[depth] = due;
                            due = frame(map_at(p, i), map);
                            depth += 1;
                        }
                    }
                    i = next.pattern;
                    j = next.situation;
                }
            }
        }
    }
    Some(Reached {
        pattern: i,
        situation: j,
    })
}

// How many bytes of nodes are the same in both from two offsets on.
fn same_nodes(p: &[u8], s: &[u8], i: usize, j: usize) -> usize
    requires { (i ≤ length p.now) × (j ≤ length s.now) }
    ensures { SameNodes (rest p.now i) (rest s.now j) result }
{
    nodes::same_front(&p[i..], &s[j..])
}

// Goes through a pattern and a situation side by side, from two offsets on, and notes the part that each name covers.
// While no open place is due what is left of the pattern stands for what is left of the situation.
fn walk_words(p: &[u8], s: &[u8], spans: &mut [u16; 128], from: usize, at: usize) -> bool
    requires inputs_read { InputsRead p.now s.now }
    requires going { Going p.now s.now spans.old from at }
    ensures { Walked p.now s.now spans.new result }
{
    let mut i = from;
    let mut j = at;
    // Kept: a turn passes a run of words and what stands behind it, and two offsets move apart, so no iterator counts it.
    while i < p.len() {
        let n = same_nodes(p, s, i, j);
        i += n;
        j += n;
        if i < p.len() {
            let b = p[i];
            if b < 128 {
                if b != s[j] {
                    return false;
                }
                let Some(reached) = walk_word(p, s, spans, i, j) else {
                    return false;
                };
                i = reached.pattern;
                j = reached.situation;
            } else {
                let Some(end) = cover(s, spans, usize::from(b) - 128, j) else {
                    return false;
                };
                i += 1;
                j = end;
            }
        }
    }
    true
}

// Goes on where the walk over the unread bytes stopped. A name or 255 at the root covers the whole situation, so that its
// end need not be looked for.
fn walk(p: &[u8], s: &[u8], spans: &mut [u16; 128], from: Option<Reached>) -> bool
    requires inputs_read { InputsRead p.now s.now }
    requires paused { Paused p.now s.now spans.old from }
    ensures { Walked p.now s.now spans.new result }
{
    let Some(from) = from else {
        return false;
    };
    let root = p[1];
    if root < 128 {
        return walk_words(p, s, spans, from.pattern, from.situation);
    }
    if root != 255 {
        note(spans, usize::from(root) - 128, 1, s.len() - 1);
    }
    true
}

// Judges a pattern and a situation and, where the pattern fits, leaves the part that each name covers in the table;
// after any other answer the table is blank. The walk comes before the reading, as far as no word has open places.
pub fn find(
    vocabulary: &[u8],
    pattern: &[u8],
    situation: &[u8],
    spans: &mut [u16; 128],
) -> Result<bool, InputsRefusal>
    ensures { HasEffect (matched vocabulary.now pattern.now situation.now (replicate 128 0)) (spans_numbers result) spans.new }
{
    *spans = [0u16; 128];
    let front = front::walk_front(pattern, situation, spans);
    if let Err(why) = inputs::judge(vocabulary, pattern, situation, spans, front.agreed) {
        *spans = [0u16; 128];
        return Err(why);
    }
    if walk(pattern, situation, spans, front.reached) {
        return Ok(true);
    }
    *spans = [0u16; 128];
    Ok(false)
}
