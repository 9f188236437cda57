// How large a listing is, by the bytes of its pattern.
#![tactic(auto)]

ghost use Rattle.std.specs.Prelude.{◌≡◌, ◌≤◌, ◌<◌, length};
ghost use Rattle.kinds.specs.Kinds.{others_in, Tallied};
ghost use Rattle.sizes.specs.Sizes.{Summed, Measured};

// The number of a listing's entries and of its bytes.
#[derive(Clone, Copy)]
pub struct Size {
    pub entries: usize,
    pub bytes: usize,
}

// How many other words have the result kind of f: all that the tally has of this kind but f.
fn sibling_count(f: usize, words: usize, results: &[u8; 96], counts: &[u8; 16]) -> usize
    requires words_bound { words ≤ 96 }
    requires f_lt_words { f < words }
    requires tallied { Tallied words results.now counts.now }
    ensures { result ≡ length (others_in words results.now f) }
{
    let kind = results[f] as usize % 16;
    counts[kind] as usize - 1
}

// Sums up in one pass over the bytes: each word has an entry for every other word of its kind, as long as what stands
// before the word, the other word and a map.
fn measure_front(p: &[u8], words: usize, results: &[u8; 96]) -> Size
    requires words_bound { words ≤ 96 }
    requires p_len_bound { length p.now ≤ 4096 }
    ensures { Summed words results.now p.now result.entries result.bytes }
{
    let counts = kinds::tally(words, results);
    let mut entries = 0;
    let mut bytes = 0;
    // Kept: a word takes two bytes and a name one, so no iterator counts the offset, which goes into the sum.
    let mut at = 1;
    while at < p.len() {
        let f = p[at] as usize;
        if f < words {
            let n = sibling_count(f, words, results, &counts);
            entries += n;
            bytes += n * (at + maps::NODE);
            at += maps::NODE;
        } else {
            at += 1;
        }
    }
    Size { entries, bytes }
}

// Measures the listing of a pattern, by its bytes and the table of the words' result kinds. Bytes from the 4,096th on and
// words from the 96th on are not looked at.
pub fn measure(p: &[u8], words: usize, results: &[u8; 96]) -> Size
    ensures { Measured words results.now p.now result.entries result.bytes }
{
    let end = p.len().min(4096);
    measure_front(&p[..end], words.min(96), results)
}
