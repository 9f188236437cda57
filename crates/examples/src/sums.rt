// Sums of bytes, by which a line tells a long text or listing.
ghost use Rattle.std.specs.Prelude.{◌<◌};

// A sum of bytes in which each has its own weight: the powers of 31, the last byte's being 1, modulo 65,521.
pub(crate) fn sum(bytes: &[u8]) -> u16
    ensures { result < 65521 }
{
    bytes.iter().fold(
        0u16,
        |total, byte| ((31 * u32::from(total) + u32::from(*byte)) % 65521) as u16,
    )
}
