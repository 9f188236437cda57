// The words of an accepted vocabulary, by its bytes: how many they are, and the tables of their records' offsets, result kinds
// and place maps.
ghost use Rattle.std.specs.Prelude.{ℕ, ◌<◌, get_or};
ghost use Rattle.signature.specs.Tables.{Tables};

#[derive(Clone, Copy)]
pub(crate) struct Words<'a> {
    pub(crate) v: &'a [u8],
    pub(crate) count: usize,
    pub(crate) offsets: &'a [u16; 96],
    pub(crate) results: &'a [u8; 96],
    pub(crate) maps: &'a [u8; 96],
    ghost tables: { Tables v.now count offsets.now results.now maps.now },
    ghost bytes: { (i : ℕ) → get_or v.now i 0 < 256 },
}
