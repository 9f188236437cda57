// How long the result of fill is.
ghost use Rattle.std.specs.Prelude.{◌≡◌, List, ℕ, ◌<◌};
ghost use Rattle.wire.specs.TermBytes.{most_levels};
ghost use Rattle.filler.specs.Ready.{Measurable, measured};

// The length of the result, by its bytes alone: for one that is no deeper than 32 levels.
fn measure_bytes(p: &[u8], starts: &[usize; 65]) -> Option<usize>
    requires { (depths : List ℕ) × Measurable p.now starts.now depths most_levels }
    ensures { (depths : List ℕ) (a : Measurable p.now starts.now depths most_levels) → result ≡ measured a }
{
    let mut n: usize = 1;
    let mut i: usize = 1;
    // Kept: a step passes a word with its map or one byte, so no iterator counts it.
    while i < p.len() {
        let c = p[i];
        if c < 128 {
            i += maps::NODE;
            n += maps::NODE;
        } else {
            i += 1;
            if c < 192 {
                let name = usize::from(c) - 128;
                let size = starts[name + 1] - starts[name];
                if 4096 < size {
                    return None;
                }
                n += size;
            } else {
                n += 1;
            }
        }
    }
    if 4096 < n {
        return None;
    }
    Some(n)
}

// The length of the result, with the levels looked at too. The pattern is within the limits itself, so only names can pass
// them. Of each word above a node it is kept how many of its written places are left.
fn measure_levels(p: &[u8], starts: &[usize; 65], depths: &[u8; 64]) -> Option<usize>
    requires { (reach : ℕ) × Measurable p.now starts.now depths.now reach }
    ensures { (reach : ℕ) (a : Measurable p.now starts.now depths.now reach) → result ≡ measured a }
{
    let mut due = [0u8; 32];
    let mut depth: usize = 0;
    let mut left: u8 = 1;
    let mut n: usize = 1;
    let mut i: usize = 1;
    // Kept: a turn leaves a word or passes a node of one byte or two, so no iterator counts it.
    while i < p.len() {
        if left == 0 {
            depth -= 1;
            left = due[depth];
        } else {
            left -= 1;
            let c = p[i];
            if c < 128 {
                let map = maps::read(p, i + 1);
                i += maps::NODE;
                n += maps::NODE;
                if map != 0 {
                    due[depth] = left;
                    depth += 1;
                    left = maps::count(map) as u8;
                }
            } else {
                i += 1;
                if c < 192 {
                    let name = usize::from(c) - 128;
                    let size = starts[name + 1] - starts[name];
                    if 4096 < size {
                        return None;
                    }
                    if 32 < depth + usize::from(depths[name]) {
                        return None;
                    }
                    n += size;
                } else {
                    n += 1;
                }
            }
        }
    }
    if 4096 < n {
        return None;
    }
    Some(n)
}

// The length of the result with its kind byte, or nothing where it is longer than 4,096 bytes or deeper than 32 levels. The
// result is known to be no deeper than `reach`: where that is within the limit its bytes decide.
pub(crate) fn measure(
    p: &[u8],
    starts: &[usize; 65],
    depths: &[u8; 64],
    reach: usize,
) -> Option<usize>
    requires { Measurable p.now starts.now depths.now reach }
    ensures { (a : Measurable p.now starts.now depths.now reach) → result ≡ measured a }
{
    if reach <= 32 {
        return measure_bytes(p, starts);
    }
    measure_levels(p, starts, depths)
}
