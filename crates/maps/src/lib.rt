// The width of place maps and written maps in bytes, which the code has here and nowhere else, and how many bits of a map stand.
#![tactic(auto)]

ghost use Rattle.std.specs.Prelude.{◌≡◌};
ghost use Rattle.wire.specs.Map.{flags, ones};
ghost use Rattle.maps.specs.Reading.{map_at};
ghost use Rattle.maps.specs.Writing.{map_put};

// A map has so many bytes.
pub const BYTES: usize = 1;

// A word's number and its map have so many bytes.
pub const NODE: usize = 1 + BYTES;

// The map at an offset, 0 where a byte of it is missing.
pub fn read(bytes: &[u8], at: usize) -> u8
    ensures { result ≡ map_at bytes.now at }
{
    bytes.get(at).copied().unwrap_or(0)
}

// How many bits of a map stand. A word has so many places.
pub fn count(map: u8) -> u32
    ensures { result ≡ ones (flags map) }
{
    map.count_ones()
}

// Writes a map at an offset. Where a byte of it has no room the bytes are left as they were.
pub fn write(map: u8, bytes: &mut [u8], at: usize)
    ensures { bytes.new ≡ map_put map bytes.old at }
{
    if at < bytes.len() {
        bytes[at] = map;
    }
}
