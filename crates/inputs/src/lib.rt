// Document 01's judging of the inputs of match.
#![tactic(auto)]

ghost use Rattle.inputs.specs.Judged.{InputsJudged};

use reader::{PairRefusal, TermRefusal};
use signature::VocabularyRefusal;

// Why the inputs of match are refused: document 01, lines 1 to 5 and 7 to 17.
#[derive(Clone, Copy)]
pub enum InputsRefusal {
    Vocabulary(VocabularyRefusal),
    Pattern(TermRefusal),
    Situation(TermRefusal),
    Incomplete(usize),
    KindsDiffer,
}

// Judges the inputs of match: a vocabulary, a pattern and a complete situation of the pattern's kind, in this order. The spans
// count where pattern and situation are said to agree by them, which must then be so.
pub fn judge(
    vocabulary: &[u8],
    pattern: &[u8],
    situation: &[u8],
    spans: &[u16; 128],
    agreed: bool,
) -> Result<(), InputsRefusal>
    ensures { InputsJudged vocabulary.now pattern.now situation.now spans.now agreed result }
{
    match reader::read_pair(vocabulary, pattern, situation, spans, agreed) {
        Err(PairRefusal::Vocabulary(why)) => Err(InputsRefusal::Vocabulary(why)),
        Err(PairRefusal::First(why)) => Err(InputsRefusal::Pattern(why)),
        Err(PairRefusal::Second(why)) => Err(InputsRefusal::Situation(why)),
        Err(PairRefusal::Incomplete(q)) => Err(InputsRefusal::Incomplete(q)),
        Ok(()) => {
            if situation.first() != pattern.first() {
                return Err(InputsRefusal::KindsDiffer);
            }
            Ok(())
        }
    }
}
