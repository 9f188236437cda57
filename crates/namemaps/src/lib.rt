// The bit map of names at the front of a filling file, compared with the names of a pattern.
#![tactic(auto)]

ghost use Rattle.std.specs.Prelude.{◌≡◌, map, ◌+◌, ◌≤◌, ◌<◌};
ghost use Rattle.terms.specs.Lists.{range};
ghost use Rattle.wire.specs.Map.{bit, number};
ghost use Rattle.wire.specs.VocabularyLines.{byte_at};
ghost use Rattle.namemaps.specs.Difference.{entry_stands, stands_in, LowestApart, DifferenceAt};

// 1 for a name that stands in the pattern: its entry is a kind, which is a byte.
fn stands(entry: u16) -> u8
    ensures { (result ≡ bit (entry_stands entry)) × (result < 2) }
{
    u8::from(entry < 256)
}

// Half a byte of the map: the four names from the given one on.
fn four_from(names: &[u16; 64], n: usize) -> u8
    requires { n + 4 ≤ 64 }
    ensures { (result ≡ number (map (stands_in names.now) (range n 4))) × (result < 16) }
{
    stands(names[n])
        + 2 * stands(names[n + 1])
        + 4 * stands(names[n + 2])
        + 8 * stands(names[n + 3])
}

// The byte of the map that holds the eight names from the given one on.
fn byte_from(names: &[u16; 64], n: usize) -> u8
    requires { n + 8 ≤ 64 }
    ensures { result ≡ number (map (stands_in names.now) (range n 8)) }
{
    four_from(names, n) + 16 * four_from(names, n + 4)
}

// The byte at an offset, 0 where it is missing.
fn byte_at(map: &[u8], i: usize) -> u8
    ensures { result ≡ byte_at map.now i }
{
    map.get(i).copied().unwrap_or(0)
}

// The lowest bit at which two different bytes differ.
fn lowest_apart(a: u8, b: u8) -> usize
    requires { a ≡ b → ⊥ }
    ensures { LowestApart a b result }
{
    (a ^ b).trailing_zeros() as usize
}

// The lowest name at which the bit map at the front of some bytes and a table of names differ, 64 where they are the same.
// A byte of the map that is missing counts as 0. Eight names are compared at once. Kept: 64 and not an Option, as the contract cites
// `DifferenceAt`.
pub fn first_difference(map: &[u8], names: &[u16; 64]) -> usize
    ensures { DifferenceAt map.now names.now result }
{
    for i in 0..8 {
        let written = byte_at(map, i);
        let named = byte_from(names, 8 * i);
        if written != named {
            return 8 * i + lowest_apart(written, named);
        }
    }
    64
}
