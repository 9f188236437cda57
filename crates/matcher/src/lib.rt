// Document 01's calls match and part.
#![tactic(auto)]

ghost use Rattle.std.specs.Prelude.{◌≡◌, ◌≤◌};
ghost use Rattle.wire.specs.Matching.{MatchPromise, PartPromise};
ghost use Rattle.wire.specs.Effect.{HasEffect};
ghost use Rattle.wire.specs.MatchComputed.{matched, part_span};
ghost use Rattle.matcher.specs.Answers.{match_numbers};
ghost use Rattle.matcher.specs.declared.MatchRefusal.TheVariants.{Inputs};
ghost use Rattle.matcher.specs.Places.{part_at};

use inputs::InputsRefusal;

// Why there is no answer: document 01, lines 1 to 5, 7 to 17 and 19.
#[derive(Clone, Copy)]
pub enum MatchRefusal {
    Inputs(InputsRefusal),
    TableLength,
}

impl From<InputsRefusal> for MatchRefusal {
    ghost from_gives = { λ why e. e ≡ Inputs why };

    fn from(why: InputsRefusal) -> MatchRefusal {
        MatchRefusal::Inputs(why)
    }
}

// Says whether a pattern fits a complete situation. Yes fills the table with the offset and the length of the part that
// each name covers; no and a refusal leave it as it was.
pub fn match_pattern(
    vocabulary: &[u8],
    pattern: &[u8],
    situation: &[u8],
    table: &mut [u16],
) -> Result<bool, MatchRefusal>
    ensures cases { MatchPromise vocabulary.now pattern.now situation.now table.old table.new (match_numbers result) }
    ensures has_effect { HasEffect (matched vocabulary.now pattern.now situation.now table.old) (match_numbers result) table.new }
{
    let mut spans = [0u16; 128];
    let fits = spans::find(vocabulary, pattern, situation, &mut spans)?;
    if table.len() != 128 {
        return Err(MatchRefusal::TableLength);
    }
    if fits {
        table.copy_from_slice(&spans);
    }
    Ok(fits)
}

// The part of the situation that a name of the pattern covers, as a part of the lent situation. It is
// empty where match would not say yes or the name does not stand in the pattern.
pub fn part<'a>(vocabulary: &[u8], pattern: &[u8], situation: &'a [u8], name: usize) -> &'a [u8]
    ensures part_promise { PartPromise vocabulary.now pattern.now situation.now name (part_at situation.entry.ref_ptr.1 result.ref_ptr.1 result.now) result.now }
    ensures ref_ptr_value { result.ref_ptr.0 ≡ situation.entry.ref_ptr.0 }
    ensures ref_ptr_le_ref_ptr { situation.entry.ref_ptr.1 ≤ result.ref_ptr.1 }
    ensures result_value { part_at situation.entry.ref_ptr.1 result.ref_ptr.1 result.now ≡ part_span vocabulary.now pattern.now situation.now name }
{
    if 63 < name {
        return &situation[0..0];
    }
    // The answer is not needed: only where the pattern fits the table is not blank.
    let mut spans = [0u16; 128];
    let _ = spans::find(vocabulary, pattern, situation, &mut spans);
    let from = usize::from(spans[2 * name]);
    let bytes = usize::from(spans[2 * name + 1]);
    &situation[from..][..bytes]
}
