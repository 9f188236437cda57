// Where the reading of a term stands: a cursor by value, whose methods take it and give it back.
#![tactic(auto)]

ghost use Rattle.std.specs.Prelude.{◌≡◌, ◌+◌, ◌<◌, true};
ghost use Rattle.cursors.specs.Cursors.{gaps_after, gaps_short, complete_in, gap_shown, short_in, started, past_leaf, past_word, went_down, went_up, at_frame};

// The offset of the next byte, the words so far, the deepest level that was due so far, the first gap, below how many words the
// next place is due, and what is due of the last of them. The gap is packed: twice its offset, one more if a map was short, and
// all bits while the term is complete. So a cursor has six numbers, and reading full words leaves this one alone.
#[derive(Clone, Copy)]
pub struct Cursor {
    pub at: usize,
    pub words: usize,
    pub deepest: usize,
    pub gaps: usize,
    pub depth: usize,
    pub due: u64,
}

// The gaps behind one more at an offset, which is the first if all was complete before it. No input is so long that a sum does
// not fit.
fn gaps_after(gaps: usize, at: usize) -> usize
    ensures { at + at < 18446744073709551616 → result ≡ gaps_after gaps at }
{
    gaps.min(at.wrapping_add(at))
}

// The same behind a short map.
fn gaps_short(gaps: usize, at: usize) -> usize
    ensures { at + at < 18446744073709551616 → result ≡ gaps_short gaps at }
{
    gaps_after(gaps, at) / 2 * 2 + 1
}

// Before the first byte of a term, which stands at an offset.
pub fn start(at: usize) -> Cursor
    ensures { result ≡ started at }
{
    Cursor {
        at,
        words: 0,
        deepest: 1,
        gaps: usize::MAX,
        depth: 0,
        due: 0,
    }
}

impl Cursor {
    // Past a name or 255, which is a gap.
    pub fn leaf(self) -> Cursor
        ensures { self.at + self.at < 18446744073709551616 → self.at + 1 < 18446744073709551616 → result ≡ past_leaf self }
    {
        Cursor {
            at: self.at.wrapping_add(1),
            gaps: gaps_after(self.gaps, self.at),
            ..self
        }
    }

    // Past a word and its map, all of whose places are written.
    pub fn whole_word(self) -> Cursor
        ensures { self.at + 2 < 18446744073709551616 → self.words + 1 < 18446744073709551616 → result ≡ past_word true self }
    {
        Cursor {
            at: self.at.wrapping_add(maps::NODE),
            words: self.words.wrapping_add(1),
            ..self
        }
    }

    // Past a word and its map, which is full or short; a short one is a gap.
    pub fn word(self, full: bool) -> Cursor
        ensures { self.at + 1 + (self.at + 1) < 18446744073709551616 → self.words + 1 < 18446744073709551616 → result ≡ past_word full self }
    {
        if full {
            return self.whole_word();
        }
        Cursor {
            at: self.at.wrapping_add(maps::NODE),
            words: self.words.wrapping_add(1),
            gaps: gaps_short(self.gaps, self.at.wrapping_add(1)),
            ..self
        }
    }

    // Down to the written places of a word.
    pub fn down(self, due: u64) -> Cursor
        ensures { self.depth + 2 < 18446744073709551616 → result ≡ went_down due self }
    {
        Cursor {
            deepest: self.deepest.max(self.depth.wrapping_add(2)),
            depth: self.depth.wrapping_add(1),
            due,
            ..self
        }
    }

    // Up to what is due of the word above.
    pub fn up(self, due: u64) -> Cursor
        ensures { result ≡ went_up due self }
    {
        Cursor {
            depth: self.depth.saturating_sub(1),
            due,
            ..self
        }
    }

    // At another frame of the same word.
    pub fn onto(self, due: u64) -> Cursor
        ensures { result ≡ at_frame due self }
    {
        Cursor { due, ..self }
    }

    // Whether the term is complete so far.
    pub fn complete(self) -> bool
        ensures { result ≡ complete_in self }
    {
        self.gaps == usize::MAX
    }

    // The first gap so far, which is the cursor's own offset while there is none.
    pub fn gap(self) -> usize
        ensures { result ≡ gap_shown self }
    {
        if self.gaps == usize::MAX {
            return self.at;
        }
        self.gaps / 2
    }

    // Whether a map was short so far.
    pub fn short(self) -> bool
        ensures { result ≡ short_in self }
    {
        self.gaps != usize::MAX && self.gaps % 2 == 1
    }
}
