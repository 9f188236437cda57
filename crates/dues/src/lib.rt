// What is due at a place of a text, told to people: the words of a kind, or the places of a word.
#![tactic(auto)]

ghost use Rattle.std.specs.Prelude.{◌≡◌, map, get_or, length, take, min, ◌<◌, ◌≤◌};
ghost use Rattle.terms.specs.Lists.{range};
ghost use Rattle.texts.specs.Lexemes.{lexemes_from, token_at};
ghost use Rattle.texts.specs.Names.{name_at};
ghost use Rattle.texts.specs.Complaints.{due_text, between, begins_term, commas_in, takes_text, missing_text, over_text, places_text};
ghost use Rattle.texts.specs.Tabled.{names_in, tabled_places};
ghost use Rattle.pages.specs.Pages.{Puts};
ghost use Rattle.dues.specs.Parts.{fault, known_of, due_words, deeper_at, comma_at};

use pages::Page;

// The reason that more places are written than a word takes. Kept: reasons are numbers, as `fault` in the contracts of `put_places` and
// `complain` takes each number.
const PLACES_OVER: usize = 25;

// What is known of a vocabulary where a fault is told: its kinds and words, whose names begin at these offsets of the text, and a record of
// ten bytes for each word. Kept: the counts stand beside their tables, as `complain` of `complaints` promises its text for every count.
#[derive(Clone, Copy)]
pub struct Known<'a> {
    pub text: &'a [u8],
    pub kinds: &'a [u16; 16],
    pub kind_count: usize,
    pub words: &'a [u16; 96],
    pub word_count: usize,
    pub records: &'a [u8; 960],
}

impl Known<'_> {
    // Puts which kind is due, with its words.
    pub fn put_due(&self, kind: usize, page: &mut Page)
        ensures { Puts page.old page.new (due_text (known_of self.now) kind) }
    {
        let kinds = self.kinds;
        put_name(self.text, kinds, self.kind_count, kind, page);
        page.put(b" is due here");
        self.put_words_of(kind, page);
    }

    // Puts how many places a word takes, and what is wrong with those that are written.
    pub fn put_places(&self, why: usize, at: usize, of: usize, page: &mut Page)
        ensures { Puts page.old page.new (places_text (known_of self.now) (fault why at of) (token_at self.now.text.now at) (commas_in 0 (lexemes_from self.now.text.now at))) }
    {
        self.put_word(of, page);
        let places = places_of(self.records, self.word_count, of);
        put_takes(places, page);
        if why == PLACES_OVER {
            put_over(self.text, at, places, page);
        } else {
            put_missing(self.text, at, page);
        }
    }

    // Puts the words of a kind, or that it has none.
    fn put_words_of(&self, kind: usize, page: &mut Page)
        ensures { Puts page.old page.new (due_words (known_of self.now) kind) }
    {
        let mut again = false;
        for i in 0..word_end(self.words, self.word_count) {
            if usize::from(self.records[10 * i]) == kind {
                put_between(again, page);
                self.put_word(i, page);
                again = true;
            }
        }
        if !again {
            page.put(b", and no word of that kind is declared before the first pattern");
        }
    }

    // Puts the name of a word; nothing where there is no such word.
    fn put_word(&self, i: usize, page: &mut Page)
        ensures { Puts page.old page.new (name_at (names_in self.now.text.now (take self.now.word_count self.now.words.now)) i) }
    {
        let words = self.words;
        put_name(self.text, words, self.word_count, i, page);
    }
}

// How many of n words a table has.
fn word_end(words: &[u16; 96], n: usize) -> usize
    ensures value { result ≡ min n (length words.now) }
    ensures upper_bound { result ≤ 96 }
{
    n.min(words.len())
}

// How many places a word takes, by its record: 8 at most, and 0 where there is no such word.
fn places_of(records: &[u8; 960], n: usize, i: usize) -> u8
    ensures { result ≡ get_or (map (tabled_places records.now) (range 0 n)) i 0 }
{
    if i < n.min(96) {
        records[10 * i + 1].min(8)
    } else {
        0
    }
}

// Puts the name of a number, where the names stand at the first n offsets of a table; nothing where there are fewer.
fn put_name(text: &[u8], table: &[u16], n: usize, i: usize, page: &mut Page)
    ensures { Puts page.old page.new (name_at (names_in text.now (take n table.now)) i) }
{
    if i < n {
        wording::put_name(text, table, i, page);
    }
}

// Puts what stands before a word of a list.
fn put_between(again: bool, page: &mut Page)
    ensures { Puts page.old page.new (between again) }
{
    page.put(if again { b" or " } else { b": " });
}

// Puts how many places a word takes.
fn put_takes(n: u8, page: &mut Page)
    ensures { Puts page.old page.new (takes_text n) }
{
    page.put(b" takes ");
    page.put_number(u64::from(n));
    if n == 1 {
        page.put(b" place");
    } else {
        page.put(b" places");
    }
}

// Puts what is said of the token at an offset where the mark before a place is due.
fn put_missing(text: &[u8], at: usize, page: &mut Page)
    ensures { Puts page.old page.new (missing_text (token_at text.now at)) }
{
    if lexer::is_mark(text, at, b')') {
        page.put(b", and fewer are written");
    } else if lexer::is_mark(text, at, b',') {
        page.put(b", and none is written");
    } else {
        page.put(b", in ( and ) with a , between them");
    }
}

// Puts what is said of the token at an offset where the ) behind the last of n places is due.
fn put_over(text: &[u8], at: usize, n: u8, page: &mut Page)
    ensures { Puts page.old page.new (over_text (token_at text.now at) n (commas_in 0 (lexemes_from text.now at))) }
{
    if !lexer::is_mark(text, at, b',') {
        page.put(b", and a ) is due here");
        return;
    }
    let more = count_commas(text, at);
    if more == 0 {
        page.put(b", and no , is due here");
        return;
    }
    page.put(b", and ");
    page.put_number(u64::from(n) + more);
    page.put(b" are written");
}

// ---- the places that are written

// How many , with a term behind them stand from an offset on, up to a : or the ) that ends the places there.
fn count_commas(text: &[u8], from: usize) -> u64
    ensures value { result ≡ commas_in 0 (lexemes_from text.now from) }
    ensures upper_bound { result ≤ length text.now }
{
    let mut at = lexer::start(text, from);
    let mut deep = 1;
    let mut n = 0;
    // Kept: a step passes a token and the blanks behind it, so no iterator counts it.
    while at < text.len() {
        let next = lexer::start(text, lexer::end(text, at));
        deep = deeper(text, at, deep);
        if deep == 0 {
            return n;
        }
        n += comma(text, at, next, deep);
        at = next;
    }
    n
}

// In how many parentheses what stands behind the token at an offset is; the token itself is in deep. A : ends them all.
fn deeper(text: &[u8], at: usize, deep: usize) -> usize
    requires deep_in_bounds { deep ≤ length text.now }
    requires deep_nonzero { 0 < deep }
    ensures { result ≡ deeper_at deep (token_at text.now at) }
{
    if lexer::is_mark(text, at, b':') {
        0
    } else if lexer::is_mark(text, at, b')') {
        deep - 1
    } else if lexer::is_mark(text, at, b'(') {
        deep + 1
    } else {
        deep
    }
}

// How many places more the token at an offset stands for: a , in the outermost parentheses for one, where a term begins behind it.
fn comma(text: &[u8], at: usize, next: usize, deep: usize) -> u64
    ensures { result ≡ comma_at deep (token_at text.now at) (token_at text.now next) }
{
    u64::from(deep == 1 && lexer::is_mark(text, at, b',') && begins_term(text, next))
}

// Whether a term may begin with the token at an offset.
fn begins_term(text: &[u8], at: usize) -> bool
    ensures { result ≡ begins_term (token_at text.now at) }
{
    lexer::is_identifier(text, at) || lexer::is_mark(text, at, b'_') || lexer::is_variable(text, at)
}
