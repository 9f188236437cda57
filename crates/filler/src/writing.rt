// The result of fill, written into a lent slice.
ghost use Rattle.std.specs.Prelude.{length};
ghost use Rattle.filler.specs.Ready.{Writable, WritesResult, Puttable, PutsValue};

// Puts the bytes of b from one offset up to another at an offset of the lent slice. A value is often a word alone: that is
// put as a word's bytes are.
fn put_value(b: &[u8], from: usize, to: usize, out: &mut [u8], at: usize)
    requires { Puttable b.now from to out.old at }
    ensures { PutsValue b.now from to out.old at out.new }
{
    if to - from == maps::NODE {
        out[at] = b[from];
        maps::write(maps::read(b, from + 1), out, at + 1);
        return;
    }
    slices::copy(&b[from..to], &mut out[at..]);
}

// Writes the pattern with each name replaced to the front of the lent slice, in one pass over the pattern's bytes.
pub(crate) fn write(p: &[u8], b: &[u8], starts: &[usize; 65], out: &mut [u8])
    requires { Writable p.now b.now starts.now (length out.old) }
    ensures { WritesResult p.now b.now starts.now out.old out.new }
{
    out[0] = p[0];
    let mut n: usize = 1;
    let mut i: usize = 1;
    // Kept: a step passes a word with its map or one byte, so no iterator counts it.
    while i < p.len() {
        let at = n;
        let c = p[i];
        if c < 128 {
            out[at] = c;
            maps::write(maps::read(p, i + 1), out, at + 1);
            i += maps::NODE;
            n += maps::NODE;
        } else {
            i += 1;
            if c < 192 {
                let name = usize::from(c) % 64;
                let from = starts[name];
                let to = starts[name + 1];
                put_value(b, from, to, out, at);
                n += to - from;
            } else {
                out[at] = c;
                n += 1;
            }
        }
    }
}
