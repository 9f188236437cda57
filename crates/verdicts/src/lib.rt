// What is printed for a question: the situation that is asked about, and yes, with what each variable covers, or no, below the
// first word that differs. Pattern and situation stand in one text, and are walked over token by token, side by side.
#![tactic(auto)]

ghost use Rattle.std.specs.Prelude.{◌≡◌, ◌||◌, ◌<◌, suc, min, ltb, length, replicate};
ghost use Rattle.texts.specs.Lexemes.{token_at};
ghost use Rattle.texts.specs.Names.{same, mark, comma, colon};
ghost use Rattle.texts.specs.Phrases.{spelled, spell};
ghost use Rattle.texts.specs.QuestionReading.{is_open};
ghost use Rattle.texts.specs.Comparing.{closing_size};
ghost use Rattle.pages.specs.Pages.{Puts};
ghost use Rattle.verdicts.specs.Steps.{behind_token, passed, tokens_in, all_tokens, level_behind, places_size, step_size, walked, Compares};
ghost use Rattle.verdicts.specs.Parts.{drawn, cover_text, covers_text, no_text, walked_text};
ghost use Rattle.verdicts.specs.Putting.{PutsQuestion};

use pages::Page;

// ---- steps over tokens

// The offset behind the first token from an offset on.
fn next(text: &[u8], at: usize) -> usize
    ensures { result ≡ behind_token text.now at }
{
    lexer::end(text, lexer::start(text, at))
}

// How many parentheses are open behind the token at an offset, where so many are open before it. They are fewer than a text has
// bytes.
fn level(text: &[u8], s: usize, depth: usize) -> usize
    requires depth_nonzero { 0 < depth }
    requires depth_bound { depth < 9223372036854775808 }
    ensures { result ≡ level_behind (token_at text.now s) depth }
{
    if lexer::is_mark(text, s, b'(') {
        depth + 1
    } else if lexer::is_mark(text, s, b')') {
        depth - 1
    } else {
        depth
    }
}

// Whether the token that begins at an offset is an open place or a variable.
fn is_open(text: &[u8], at: usize) -> bool
    ensures { result ≡ is_open (token_at text.now at) }
{
    lexer::is_mark(text, at, b'_') || lexer::is_variable(text, at)
}

// Whether a token of the pattern admits a token of the situation.
fn admits(text: &[u8], due: usize, here: usize) -> bool
    ensures { result ≡ (is_open (token_at text.now due) || same (token_at text.now due) (token_at text.now here)) }
{
    is_open(text, due) || lexer::same_token(text, due, here)
}

// Where a situation differs from a pattern: the offset of the pattern's token, and the offset up to which the situation fits.
#[derive(Clone, Copy)]
struct Difference {
    due: usize,
    here: usize,
}

// ---- tokens on the page

// How text is put: as it is written, or as a space for each of its characters.
#[derive(Clone, Copy)]
enum Ink {
    Letters,
    Spaces,
}

// Puts so many spaces.
fn put_spaces(n: u64, page: &mut Page)
    ensures { Puts page.old page.new (replicate n 32) }
{
    for _i in 0..n {
        page.put(b" ");
    }
}

// Puts the token at an offset.
fn put_name(text: &[u8], s: usize, ink: Ink, page: &mut Page)
    ensures { Puts page.old page.new (drawn ink (token_at text.now s)) }
{
    match ink {
        Ink::Letters => wording::put_token(text, s, page),
        Ink::Spaces => put_spaces(lines::count_columns(lexer::token(text, s)), page),
    }
}

// Whether a space follows the token at an offset.
fn is_spaced(text: &[u8], s: usize) -> bool
    ensures { result ≡ (same (token_at text.now s) (mark comma) || same (token_at text.now s) (mark colon)) }
{
    lexer::is_mark(text, s, b',') || lexer::is_mark(text, s, b':')
}

// Puts the token at an offset with the space that follows it.
fn put_spelled(text: &[u8], s: usize, ink: Ink, page: &mut Page)
    ensures { Puts page.old page.new (drawn ink (spelled (token_at text.now s))) }
{
    put_name(text, s, ink, page);
    if is_spaced(text, s) {
        page.put(b" ");
    }
}

// ---- the tokens before an end

// The tokens of a text that begin before an end.
#[derive(Clone, Copy)]
struct Tokens<'a> {
    text: &'a [u8],
    end: usize,
}

impl Tokens<'_> {
    // Whether a token that begins at an offset is one of them.
    fn stands(&self, s: usize) -> bool
        ensures { result ≡ ltb s (min self.now.end (length self.now.text.now)) }
    {
        s < self.end.min(self.text.len())
    }

    // The offset behind the ) that closes the ( before an offset.
    // Kept: a step passes a token of any size with the blanks before it, so no iterator counts it, and the offset is the answer.
    fn close(&self, at: usize) -> usize
        ensures { result ≡ passed self.now.text.now at (closing_size 1 (tokens_in self.now.text.now at self.now.end)) }
    {
        let mut i = at;
        let mut depth = 1;
        while 0 < depth {
            let s = lexer::start(self.text, i);
            if !self.stands(s) {
                return i;
            }
            depth = level(self.text, s, depth);
            i = lexer::end(self.text, s);
        }
        i
    }

    // The offset behind the places of a word, whose name ends at an offset.
    fn skip_places(&self, at: usize) -> usize
        ensures { result ≡ passed self.now.text.now at (places_size (tokens_in self.now.text.now at self.now.end)) }
    {
        let s = lexer::start(self.text, at);
        if !self.stands(s) || !lexer::is_mark(self.text, s, b'(') {
            return at;
        }
        self.close(lexer::end(self.text, s))
    }

    // The offset behind what a token of the pattern stands for in the situation: a term where it is open, and otherwise one token.
    fn pass(&self, due: usize, at: usize) -> usize
        ensures { result ≡ passed self.now.text.now at (suc (step_size (token_at self.now.text.now due) (tokens_in self.now.text.now (behind_token self.now.text.now at) self.now.end))) }
    {
        let behind = next(self.text, at);
        if is_open(self.text, due) {
            self.skip_places(behind)
        } else {
            behind
        }
    }

    // Compares the pattern from an offset on and the situation from an offset on, which fits where there is no difference.
    // Kept: a step passes a token or a whole term on each side, so no iterator walks over both.
    fn compare(&self, from: usize, at: usize) -> Option<Difference>
        ensures { Compares self.now.text.now at self.now.end (walked self.now.text.now from at self.now.end) result }
    {
        let mut a = from;
        let mut s = at;
        loop {
            let here = lexer::start(self.text, s);
            if !self.stands(here) {
                return None;
            }
            let due = lexer::start(self.text, a);
            if !admits(self.text, due, here) {
                return Some(Difference { due, here: s });
            }
            s = self.pass(due, s);
            a = lexer::end(self.text, due);
        }
    }

    // Puts them from an offset on.
    // Kept: a step passes a token of any size with the blanks before it, so no iterator counts it.
    fn put_tokens(&self, from: usize, ink: Ink, page: &mut Page)
        ensures { Puts page.old page.new (drawn ink (spell (tokens_in self.now.text.now from self.now.end))) }
    {
        let mut i = from;
        loop {
            let s = lexer::start(self.text, i);
            if !self.stands(s) {
                return;
            }
            put_spelled(self.text, s, ink, page);
            i = lexer::end(self.text, s);
        }
    }

    // Puts what the pattern's token at an offset covers, which is what stands from an offset on, where it is a variable.
    fn put_cover(&self, due: usize, from: usize, page: &mut Page)
        ensures { Puts page.old page.new (cover_text (token_at self.now.text.now due) (tokens_in self.now.text.now from self.now.end)) }
    {
        if !lexer::is_variable(self.text, due) {
            return;
        }
        page.put(b"# ");
        wording::put_token(self.text, due, page);
        page.put(b" = ");
        self.put_tokens(from, Ink::Letters, page);
        page.put(b"\n");
    }

    // Puts what each variable covers, where the situation fits.
    // Kept: a step passes a token or a whole term on each side, so no iterator walks over both.
    fn put_covers(&self, from: usize, at: usize, page: &mut Page)
        ensures { Puts page.old page.new (covers_text (length (tokens_in self.now.text.now at self.now.end)) (all_tokens self.now.text.now from) (tokens_in self.now.text.now at self.now.end)) }
    {
        let mut a = from;
        let mut s = at;
        loop {
            let here = lexer::start(self.text, s);
            if !self.stands(here) {
                return;
            }
            let due = lexer::start(self.text, a);
            let behind = self.pass(due, s);
            let covered = Tokens {
                text: self.text,
                end: behind,
            };
            covered.put_cover(due, s, page);
            s = behind;
            a = lexer::end(self.text, due);
        }
    }

    // Puts what the pattern has where the situation differs, below the place up to which the situation fits.
    fn put_no(&self, label: usize, at: usize, difference: Difference, page: &mut Page)
        ensures { Puts page.old page.new (no_text (token_at self.now.text.now label) (tokens_in self.now.text.now at difference.here) (token_at self.now.text.now difference.due)) }
    {
        page.put(b"# ");
        put_name(self.text, label, Ink::Spaces, page);
        page.put(b"   ");
        let fitting = Tokens {
            text: self.text,
            end: difference.here,
        };
        fitting.put_tokens(at, Ink::Spaces, page);
        page.put(b"^ no: ");
        wording::put_token(self.text, difference.due, page);
        page.put(b" is due here\n");
    }

    // Puts the answer for a pattern from an offset on and the situation from an offset on.
    fn put_verdict(&self, label: usize, from: usize, at: usize, page: &mut Page)
        ensures { Puts page.old page.new (walked_text (token_at self.now.text.now label) (tokens_in self.now.text.now at self.now.end) (walked self.now.text.now from at self.now.end)) }
    {
        match self.compare(from, at) {
            Some(difference) => self.put_no(label, at, difference, page),
            None => {
                page.put(b"# yes\n");
                self.put_covers(from, at, page);
            }
        }
    }
}

// ---- the answer

// Puts a question with its answer, where the pattern's label stands at the offset `label` and the situation is read from the offset
// `at` on.
pub fn put_question(text: &[u8], label: usize, at: usize, page: &mut Page)
    ensures { PutsQuestion text.now label at page.old.bytes page.old.end page.new.bytes page.new.end }
{
    let whole = Tokens {
        text,
        end: text.len(),
    };
    let end = whole.skip_places(next(text, at));
    let situation = Tokens { text, end };
    let from = next(text, next(text, label));
    page.put(b"# ");
    wording::put_token(text, label, page);
    page.put(b" ? ");
    situation.put_tokens(at, Ink::Letters, page);
    page.put(b"\n");
    situation.put_verdict(label, from, at, page);
    page.put(b"\n");
}
