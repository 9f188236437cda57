// Document 02's call fill: the pattern with each name replaced.
#![tactic(auto)]

ghost use Rattle.std.specs.Prelude.{◌≡◌};
ghost use Rattle.wire.specs.Effect.{HasEffect};
ghost use Rattle.wire.specs.Filled.{FillPromise};
ghost use Rattle.wire.specs.FillComputed.{filled};
ghost use Rattle.filler.specs.Answers.{fill_numbers};
ghost use Rattle.filler.specs.declared.FillRefusal.TheVariants.{Inputs};
ghost use Rattle.filler.specs.Ready.{Known, FillsRead};

use reader::FillingRefusal;

mod depth;
mod measure;
mod writing;

// Why there is no result.
#[derive(Clone, Copy)]
pub enum FillRefusal {
    Inputs(FillingRefusal),
    TooLarge,
    NoRoom(usize),
}

impl From<FillingRefusal> for FillRefusal {
    ghost from_gives = { λ why e. e ≡ Inputs why };

    fn from(why: FillingRefusal) -> FillRefusal {
        FillRefusal::Inputs(why)
    }
}

// The same for inputs that are read: a pattern of so many levels, a filling file, and the tables of its values.
fn fill_read(
    pattern: &[u8],
    filling: &[u8],
    starts: &[usize; 65],
    depths: &[u8; 64],
    deepest: usize,
    out: &mut [u8],
) -> Result<usize, FillRefusal>
    requires { Known pattern.now filling.now starts.now depths.now deepest }
    ensures { FillsRead pattern.now filling.now starts.now depths.now deepest out.old out.new (fill_numbers result) }
{
    // A value's root stands at its name's level.
    let reach = deepest + depth::most_levels(depths) - 1;
    let Some(n) = measure::measure(pattern, starts, depths, reach) else {
        return Err(FillRefusal::TooLarge);
    };
    if out.len() < n {
        return Err(FillRefusal::NoRoom(n));
    }
    writing::write(pattern, filling, starts, out);
    Ok(n)
}

// Writes a pattern with each name replaced by the term that a filling file gives it, to the front of out, and says how long
// the result is. Nothing is written before it is known that all of it fits: a refusal leaves out as it was.
pub fn fill(
    vocabulary: &[u8],
    pattern: &[u8],
    filling: &[u8],
    out: &mut [u8],
) -> Result<usize, FillRefusal>
    ensures fill_promise { FillPromise vocabulary.now pattern.now filling.now out.old out.new (fill_numbers result) }
    ensures has_effect { HasEffect (filled vocabulary.now pattern.now filling.now out.old) (fill_numbers result) out.new }
{
    let mut starts = [0usize; 65];
    let mut depths = [0u8; 64];
    let deepest = reader::read_filling(vocabulary, pattern, filling, &mut starts, &mut depths)?;
    fill_read(pattern, filling, &starts, &depths, deepest, out)
}
