// Names that stand twice in a pattern.
#![tactic(auto)]

ghost use Rattle.std.specs.Prelude.{◌≡◌};
ghost use Rattle.repeats.specs.FirstRepeat.{first_repeat, repeat_of};

// The earliest byte of a pattern at which a name stands for the second time, in one pass over its bytes, where the numbers
// below `words` are words.
pub fn first_repeat(p: &[u8], words: usize) -> Option<usize>
    ensures { repeat_of result ≡ first_repeat words p.now }
{
    let mut seen = [false; 64];
    // Kept: a step passes one byte or two, so no iterator counts it, and the offset is the answer.
    let mut at = 1;
    while at < p.len() {
        let here = at;
        let b = p[here] as usize;
        if b < words {
            at += maps::NODE;
        } else {
            at += 1;
            if 128 <= b && b < 192 {
                if seen[b - 128] {
                    return Some(here);
                }
                seen[b - 128] = true;
            }
        }
    }
    None
}
