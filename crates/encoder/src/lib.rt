// The bytes of a vocabulary that stands in a table of records of ten bytes.
#![tactic(auto)]

ghost use Rattle.std.specs.Prelude.{◌≡◌, ◌+◌, ◌<◌, ◌≤◌, length};
ghost use Rattle.wire.specs.Vocabulary.{most_words};
ghost use Rattle.texts.specs.Lexicon.{gapless_map, most_places};
ghost use Rattle.texts.specs.Tabled.{record_size};
ghost use Rattle.encoder.specs.Encoded.{PutWord, Encoded};

// The map of m places, counted from 0 without gaps.
fn full_map(m: usize) -> u8
    requires { m ≤ most_places }
    ensures { result ≡ gapless_map m }
{
    ((1usize << m) - 1) as u8
}

// Writes the word of number f at an offset: its kind, its map, and the kinds of its places, 8 at most.
fn put_word(records: &[u8; 960], f: usize, out: &mut [u8; 962], at: usize) -> usize
    requires inside { f < most_words }
    requires room { at + record_size ≤ length out.old }
    ensures { PutWord records.now f at out.old result out.new }
{
    let record = 10 * f;
    let m = usize::from(records[record + 1]).min(8);
    out[at] = records[record];
    out[at + 1] = full_map(m);
    out[at + 2..at + 2 + m].copy_from_slice(&records[record + 2..record + 2 + m]);
    at + 2 + m
}

fn put_words(k: u8, n: usize, records: &[u8; 960], out: &mut [u8; 962]) -> usize
    requires { n ≤ most_words }
    ensures { Encoded k n records.now result out.new }
{
    out[0] = k;
    out[1] = n as u8;
    let mut at = 2;
    for f in 0..n {
        at = put_word(records, f, out, at);
    }
    at
}

// Writes the bytes of the vocabulary of k kinds and the first n words of the table, and says how many they are. Nothing is written
// where a count is too large for its byte or the table.
// Kept: 0 and not an Option, as whoever takes that many of the bytes takes none of them then, and an Option would be unwrapped to 0.
pub fn encode(k: usize, n: usize, records: &[u8; 960], out: &mut [u8; 962]) -> usize
    ensures encoded { k < 256 → n ≤ most_words → Encoded k n records.now result out.new }
    ensures upper_bound { result ≤ length out.new }
{
    match u8::try_from(k) {
        Ok(k) if n <= 96 => put_words(k, n, records, out),
        _ => 0,
    }
}
