// The words of each result kind, by a table of the words' result kinds: counted, chained one to the next, and both
// in one table.
#![tactic(auto)]

ghost use Rattle.std.specs.Prelude.{◌≡◌, [], ◌<◌, ◌%◌, min};
ghost use Rattle.wire.specs.Vocabulary.{most_kinds, most_words};
ghost use Rattle.kinds.specs.Kinds.{Tallied, Chained, SiblingTable};

// The kind that an entry of the table says: a vocabulary has at most 16.
fn kind(entry: u8) -> usize
    ensures { result ≡ entry % most_kinds }
{
    entry as usize % 16
}

// How many of the first words have each result kind.
pub fn tally(words: usize, results: &[u8; 96]) -> [u8; 16]
    ensures { Tallied (min words most_words) results.now result }
{
    let n = words.min(96);
    let mut counts = [0u8; 16];
    for result in &results[..n] {
        counts[kind(*result)] += 1;
    }
    counts
}

// Chains the first words, from the last to the first: for each word the next one of its result kind, and from 96 on for each
// kind its lowest word; 255 where there is none. The next words stand in front: they are read more often, and without an offset.
// Kept: 255 and not an Option, since `Chained`, which the contract cites, has it for none.
pub fn chain(words: usize, results: &[u8; 96]) -> [u8; 112]
    ensures { Chained (min words most_words) results.now result }
{
    let mut chains = [255u8; 112];
    let n = words.min(96);
    for h in (0..n).rev() {
        let k = kind(results[h]);
        chains[h] = chains[96 + k];
        chains[96 + k] = h as u8;
    }
    chains
}

// A table of siblings that has no word.
fn no_siblings() -> [u8; 384]
    ensures { SiblingTable 0 [] result }
{
    let mut table = [255u8; 384];
    table[256..].fill(0);
    table
}

// For each of the first words the next one of its result kind, from 128 on the lowest one of its kind, and from 256 on how many
// others its kind has; 255, 255 and 0 for what is no word. Kept: one table with 255 for none, since the contract cites `SiblingTable`,
// and a byte is read in it without a test.
pub fn siblings(words: usize, results: &[u8; 96]) -> [u8; 384]
    ensures { SiblingTable (min words most_words) results.now result }
{
    let n = words.min(96);
    let chains = chain(words, results);
    let counts = tally(words, results);
    let mut table = no_siblings();
    for (f, result) in results[..n].iter().enumerate() {
        let k = kind(*result);
        table[f] = chains[f];
        table[128 + f] = chains[96 + k];
        table[256 + f] = counts[k] - 1;
    }
    table
}
