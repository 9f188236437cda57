// Slices compared and copied.
#![tactic(auto)]

ghost use Rattle.std.specs.Prelude.{◌≡◌, ◌+◌, ◌≤◌, length};
ghost use Rattle.slices.specs.Equal.{Equal};
ghost use Rattle.slices.specs.Copied.{begun, copied};

// Whether two slices have the same bytes.
pub fn equal(a: &[u8], b: &[u8]) -> bool
    ensures { Equal a.now b.now result }
{
    a == b
}

// Copies the first K bytes as one value.
fn copy_block<const K: usize>(from: &[u8], to: &mut [u8])
    requires from_has { K ≤ length from.now }
    requires to_has { K ≤ length to.old }
    ensures { to.new ≡ begun from.now to.old K }
{
    if let (Some(block), Some(place)) = (from[..K].as_array::<K>(), to.first_chunk_mut::<K>()) {
        *place = *block;
    }
}

// Copies the first K bytes and the last K, which may overlap. A copy of a fixed size is a few moves, where one of any size is a
// loop that costs more than a short entry's bytes.
fn copy_ends<const K: usize>(from: &[u8], to: &mut [u8])
    requires same_length { length from.now ≡ length to.old }
    requires at_least { K ≤ length from.now }
    requires at_most { length from.now ≤ K + K }
    ensures { to.new ≡ from.now }
{
    let rest = from.len() - K;
    copy_block::<K>(from, to);
    copy_block::<K>(&from[rest..], &mut to[rest..]);
}

fn copy_all(from: &[u8], to: &mut [u8])
    requires { length from.now ≡ length to.old }
    ensures { to.new ≡ from.now }
{
    match from.len() {
        0 => {}
        1 => copy_ends::<1>(from, to),
        2..=3 => copy_ends::<2>(from, to),
        4..=7 => copy_ends::<4>(from, to),
        8..=15 => copy_ends::<8>(from, to),
        16..=31 => copy_ends::<16>(from, to),
        32..=63 => copy_ends::<32>(from, to),
        64..=127 => copy_ends::<64>(from, to),
        128..=256 => copy_ends::<128>(from, to),
        _ => to.copy_from_slice(from),
    }
}

// Copies the bytes of one slice to the front of another, as many as the shorter has. Those behind stay.
pub fn copy(from: &[u8], to: &mut [u8])
    ensures { to.new ≡ copied from.now to.old }
{
    let n = from.len().min(to.len());
    copy_all(&from[..n], &mut to[..n]);
}
