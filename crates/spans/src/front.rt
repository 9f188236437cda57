// A walk over a pattern and a situation that nobody has read yet: the bytes may be any. It goes on while no open place
// is due, and notes the part that each name covers.
ghost use Rattle.std.specs.Prelude.{◌≡◌, true, ◌≤◌, replicate};
ghost use Rattle.wire.specs.Splicing.{Agrees};
ghost use Rattle.spans.specs.Front.{AtFront, Paused};

use crate::Reached;

// Whether the walk has come to the ends of both, and how far it has come; nowhere where the pattern does not fit.
#[derive(Drop)]
pub(crate) struct Front {
    pub(crate) agreed: bool,
    pub(crate) reached: Option<Reached>,
}

// Passes words that both share, and names whose part is noted and stands here again.
fn pass_known(p: &[u8], s: &[u8], spans: &[u16; 128], from: usize, at: usize) -> Reached
    requires { AtFront p.now s.now spans.now from at }
    ensures from_le_pattern { from ≤ result.pattern }
    ensures at_front { AtFront p.now s.now spans.now result.pattern result.situation }
{
    let mut i = from;
    let mut j = at;
    // Kept: a turn passes a run of words and a name, and two offsets move apart, so no iterator counts it.
    while i < p.len() {
        let n = runs::words(p, s, i, j);
        i += n;
        j += n;
        if i == p.len() {
            return Reached {
                pattern: i,
                situation: j,
            };
        }
        let b = p[i];
        if b / 64 != 2 {
            return Reached {
                pattern: i,
                situation: j,
            };
        }
        let Some(end) = crate::known_end(s, spans, usize::from(b) - 128, j) else {
            return Reached {
                pattern: i,
                situation: j,
            };
        };
        i += 1;
        j = end;
    }
    Reached {
        pattern: i,
        situation: j,
    }
}

// The walk over any two slices, with a blank table. It goes on while no open place is due: words are shared, and names
// cover a part, the same bytes each time.
pub(crate) fn walk_front(p: &[u8], s: &[u8], spans: &mut [u16; 128]) -> Front
    requires { spans.old ≡ replicate 128 0 }
    ensures agrees { result.agreed ≡ true → Agrees p.now s.now spans.new }
    ensures paused { Paused p.now s.now spans.new result.reached }
{
    if !runs::alike(p, s) {
        return Front {
            agreed: false,
            reached: Some(Reached {
                pattern: 1,
                situation: 1,
            }),
        };
    }
    let mut i: usize = 1;
    let mut j: usize = 1;
    // Kept: a turn passes words and a name, or a run of words, and two offsets move apart, so no iterator counts it.
    while i < p.len() {
        let reached = pass_known(p, s, spans, i, j);
        i = reached.pattern;
        j = reached.situation;
        if i < p.len() {
            let b = p[i];
            if b / 64 == 2 {
                let Some(end) = crate::cover(s, spans, usize::from(b) - 128, j) else {
                    return Front {
                        agreed: false,
                        reached: None,
                    };
                };
                i += 1;
                j = end;
            } else {
                let n = runs::run(p, s, i, j);
                if n == 0 {
                    return Front {
                        agreed: false,
                        reached: Some(Reached {
                            pattern: i,
                            situation: j,
                        }),
                    };
                }
                i += n;
                j += n;
            }
        }
    }
    Front {
        agreed: s.len() <= j,
        reached: Some(Reached {
            pattern: i,
            situation: j,
        }),
    }
}
