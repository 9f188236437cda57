// Which words and kinds complete situations have, by the table of the words' settled result kinds: a word that no complete
// situation has is settled to the lowest kind without any, `empty`.
#![tactic(auto)]

ghost use Rattle.std.specs.Prelude.{◌≡◌, eqb};
ghost use Rattle.std.specs.List.{list_any};
ghost use Rattle.productive.specs.Tests.{fruitful_in, inhabited_in};

// Whether no word of a pattern is settled to the kind `empty`, in one pass over its bytes. Bytes behind the first 4,096 and
// words behind the first 96 are not looked at.
pub fn fruitful(pattern: &[u8], words: usize, settled: &[u8; 96], empty: usize) -> bool
    ensures { result ≡ fruitful_in words settled.now empty pattern.now }
{
    let n = words.min(96);
    let end = pattern.len().min(4096);
    // Kept: a step passes one byte or two, so no iterator counts it.
    let mut at = 1;
    while at < end {
        let f = pattern[at] as usize;
        if f < n {
            if settled[f] as usize == empty {
                return false;
            }
            at += maps::NODE;
        } else {
            at += 1;
        }
    }
    true
}

// Whether some entry of a table is the kind.
fn has(entries: &[u8], kind: usize) -> bool
    ensures { result ≡ list_any (λ k. eqb k kind) entries.now }
{
    entries.iter().any(|k| *k as usize == kind)
}

// Whether some complete situation has the kind: it is not `empty`, and some of the first words, at most 96, is settled to it.
pub fn inhabited(kind: usize, words: usize, settled: &[u8; 96], empty: usize) -> bool
    ensures { result ≡ inhabited_in words settled.now empty kind }
{
    kind != empty && has(&settled[..words.min(96)], kind)
}
