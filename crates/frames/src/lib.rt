// The places of a word that are due, packed into a number: those that follow each other in a run, a bit for each, the
// offset in the vocabulary of the first one's kind, and the written map and the place map of those behind the run.
// Kept: one number a level and no struct of four, as the clauses of the public functions speak of the number (`kinds_in`, `WordFrame`).
#![tactic(auto)]

ghost use Rattle.std.specs.Prelude.{◌≡◌, ◌-◌, ◌%◌, ◌<◌, ◌≤◌};
ghost use Rattle.frames.specs.Frames.{run_in, kinds_in, written_in, places_in, Behind, Advanced, WordFrame};

// The offset of the next kind.
pub fn kinds(frame: u64) -> usize
    ensures { result ≡ kinds_in frame }
{
    (frame / 256 % 1048576) as usize
}

// The written map behind the run.
pub fn written(frame: u64) -> u64
    ensures { result ≡ written_in frame }
{
    frame / 256 / 1048576 % 256
}

// The frame without the first place of its run: the lowest bit falls, and the next kind is one further.
pub fn passed(frame: u64) -> u64
    ensures { 0 < run_in frame → kinds_in frame < 131072 → places_in frame < 256 → Behind frame result }
{
    (frame & frame.wrapping_sub(1)).wrapping_add(256)
}

// The frame with the lowest place of its maps taken off them: it is a run of its own if it is written.
pub fn advanced(frame: u64) -> u64
    ensures { kinds_in frame < 131072 → places_in frame < 256 → written_in frame % 2 ≤ places_in frame % 2 → Advanced frame result }
{
    let upper = frame / 256;
    let kinds = upper % 1048576;
    let maps = upper / 1048576;
    let written = maps % 256;
    let places = maps / 256;
    // Kinds stand far before 1048576, so that the remainder is the difference itself; of other frames it is some number.
    let next = (kinds + places % 2 + 1048576 - written % 2) % 1048576;
    written % 2 + 256 * (next + 1048576 * (written / 2 + 256 * (places / 2)))
}

// All places of the word with a place map, whose record stands at an offset.
pub fn full(map: u8, offset: u16) -> u64
    ensures { WordFrame result map map offset }
{
    let kinds = u64::from(offset) + maps::NODE as u64;
    u64::from(map) + 256 * kinds
}

// Its places at a written map.
pub fn of_word(written: u8, map: u8, offset: u16) -> u64
    ensures { WordFrame result written map offset }
{
    if written == map {
        return full(map, offset);
    }
    let kinds = u64::from(offset) + maps::NODE as u64;
    256 * (kinds + 1048576 * (u64::from(written) + 256 * u64::from(map)))
}
