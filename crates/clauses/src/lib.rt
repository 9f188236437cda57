// Terms in words, read off a text: their bytes and the offsets of their variables, or what is wrong and where.
#![tactic(auto)]

ghost use Rattle.std.specs.Prelude.{◌≡◌, ◌+◌, ◌≤◌, ◌<◌, ◌*◌, length, get_or, set, take, true, false};
ghost use Rattle.wire.specs.TermBytes.{most_bytes};
ghost use Rattle.wire.specs.Vocabulary.{most_words};
ghost use Rattle.texts.specs.Tabled.{tabled_places, record_size, names_in};
ghost use Rattle.texts.specs.Lexemes.{token_at};
ghost use Rattle.texts.specs.Names.{is_identifier, index_in};
ghost use Rattle.faults.specs.Reasons.{reason_of};
ghost use Rattle.clauses.specs.Reading.{Within, Tables, Fits, mark_before, word_reason, variable_reason, ReadsVariable, HeadRead, Closes, ReadsPlaces, ReadsTerm};

use faults::{Fault, Reason};

// How far reading has come: the offset in the text, the bytes written, the variables seen; and a bit for each place that was
// read, which stands where it is written.
#[derive(Clone, Copy)]
pub struct Reached {
    pub at: usize,
    pub to: usize,
    pub seen: usize,
    pub map: usize,
}

// A text, with the tables of its vocabulary: the offsets of the names of n words, and the words' records.
#[derive(Clone, Copy)]
pub struct Glossary<'a> {
    pub text: &'a [u8],
    pub words: &'a [u16; 96],
    pub n: usize,
    pub records: &'a [u8; 960],
}

// What a term begins with: it is read whole, or it is a word, with the offset behind it.
#[derive(Clone, Copy)]
enum Head {
    Leaf(Reached),
    Word(usize, usize),
}

// The mark before a place.
fn mark_before(i: usize) -> u8
    ensures { result ≡ mark_before i }
{
    if i == 0 { b'(' } else { b',' }
}

// Writes a word's number and its map.
fn put_word(out: &mut [u8; 4096], to: usize, f: usize, map: usize)
    requires to_bound { to + 2 ≤ most_bytes }
    requires f_lt_most_words { f < most_words }
    requires map_bound { map < 256 }
    ensures { out.new ≡ set (set out.old to f) (to + 1) map }
{
    out[to] = f as u8;
    out[to + 1] = map as u8;
}

// Why the token at an offset is no variable that may stand there; None where it is.
pub fn variable_why(
    text: &[u8],
    s: usize,
    left: usize,
    to: usize,
    variables: &[u16; 64],
    seen: usize,
) -> Option<Reason>
    ensures { reason_of result ≡ variable_reason (length (token_at text.now s)) (index_in (token_at text.now s) (names_in text.now (take seen variables.now))) seen left to }
{
    if 33 < lexer::end(text, s) - s {
        return Some(Reason::LongName);
    }
    if lexer::find(text, s, variables, seen) < seen {
        return Some(Reason::VariableTwice);
    }
    if left == 0 {
        return Some(Reason::TooDeep);
    }
    if 64 <= seen {
        return Some(Reason::ManyVariables);
    }
    if to < 4096 {
        None
    } else {
        Some(Reason::TooLong)
    }
}

// Reads the variable at an offset.
fn read_variable(
    text: &[u8],
    s: usize,
    left: usize,
    due: usize,
    out: &mut [u8; 4096],
    to: usize,
    variables: &mut [u16; 64],
    seen: usize,
) -> Result<Reached, Fault>
    requires { Within text.now s 0 to seen }
    ensures { ReadsVariable text.now s left due out.old to variables.old seen out.new variables.new result }
{
    if let Some(why) = variable_why(text, s, left, to, variables, seen) {
        return Err(Fault {
            why,
            at: s,
            of: due,
        });
    }
    out[to] = (128 + seen) as u8;
    variables[seen] = s as u16;
    Ok(Reached {
        at: lexer::end(text, s),
        to: to + 1,
        seen: seen + 1,
        map: 1,
    })
}

// Behind the last place of a word: a word without places has no parentheses.
fn close(
    text: &[u8],
    at: usize,
    i: usize,
    f: usize,
    to: usize,
    seen: usize,
) -> Result<Reached, Fault>
    requires { Within text.now at 0 to seen }
    ensures { Closes text.now at i f to seen result }
{
    if i == 0 {
        return Ok(Reached {
            at,
            to,
            seen,
            map: 0,
        });
    }
    let s = lexer::start(text, at);
    if !lexer::is_mark(text, s, b')') {
        return Err(Fault {
            why: Reason::PlacesOver,
            at: s,
            of: f,
        });
    }
    Ok(Reached {
        at: lexer::end(text, s),
        to,
        seen,
        map: 0,
    })
}

// Whether the text, the tables and what was read so far have sizes that can be read: the tables have theirs.
pub fn fits(
    text: &[u8],
    at: usize,
    words: &[u16],
    n: usize,
    records: &[u8],
    out: &[u8],
    to: usize,
    variables: &[u16],
    seen: usize,
) -> bool
    ensures fits { result ≡ true → Fits text.now at words.now n records.now out.now to variables.now seen }
    ensures fact { result ≡ false → Fits text.now at words.now n records.now out.now to variables.now seen → ⊥ }
{
    text.len() <= 65535
        && at <= text.len()
        && n <= 96
        && to <= 4096
        && seen <= 64
        && words.len() == 96
        && records.len() == 960
        && out.len() == 4096
        && variables.len() == 64
}

impl Glossary<'_> {
    // The kind that a word's record says.
    fn result(&self, f: usize) -> usize
        requires { f < 96 }
        ensures { result ≡ get_or self.now.records.now (record_size * f) 0 }
    {
        usize::from(self.records[10 * f])
    }

    // How many places a word's record says that it has.
    fn places(&self, f: usize) -> usize
        requires { f < 96 }
        ensures { result ≡ tabled_places self.now.records.now f }
    {
        usize::from(self.records[10 * f + 1]).min(8)
    }

    // The kind of a place of a word.
    fn kind(&self, f: usize, i: usize) -> usize
        requires f_bound { f < 96 }
        requires i_bound { i < 8 }
        ensures { result ≡ get_or self.now.records.now (record_size * f + 2 + i) 0 }
    {
        usize::from(self.records[10 * f + 2 + i])
    }

    // Why the token at an offset, which is word f if that is one of the n, is no word that may stand there; None where it is.
    fn word_why(&self, s: usize, f: usize, left: usize, due: usize, to: usize) -> Option<Reason>
        requires n_le_most_words { self.now.n ≤ most_words }
        requires to_le_most_bytes { to ≤ most_bytes }
        ensures { reason_of result ≡ word_reason (is_identifier (token_at self.now.text.now s)) f self.now.n (get_or self.now.records.now (record_size * f) 0) left due to }
    {
        if !lexer::is_identifier(self.text, s) {
            return Some(Reason::TermDue);
        }
        if self.n <= f {
            return Some(Reason::UnknownWord);
        }
        if self.result(f) != due {
            return Some(Reason::OtherKind);
        }
        if left == 0 {
            return Some(Reason::TooDeep);
        }
        if to + maps::NODE <= 4096 {
            None
        } else {
            Some(Reason::TooLong)
        }
    }

    // Reads a term up to its places.
    fn read_head(
        &self,
        at: usize,
        left: usize,
        due: usize,
        out: &mut [u8; 4096],
        to: usize,
        variables: &mut [u16; 64],
        seen: usize,
    ) -> Result<Head, Fault>
        requires within { Within self.now.text.now at self.now.n to seen }
        requires tables { Tables self.now.words.now self.now.records.now }
        ensures { HeadRead self.now.text.now at left due self.now.words.now self.now.n self.now.records.now out.old to variables.old seen out.new variables.new result }
    {
        let text = self.text;
        let s = lexer::start(text, at);
        if lexer::is_mark(text, s, b'_') {
            return Ok(Head::Leaf(Reached {
                at: lexer::end(text, s),
                to,
                seen,
                map: 0,
            }));
        }
        if lexer::is_variable(text, s) {
            let leaf = read_variable(text, s, left, due, out, to, variables, seen)?;
            return Ok(Head::Leaf(leaf));
        }
        let words = self.words;
        let f = lexer::find(text, s, words, self.n);
        if let Some(why) = self.word_why(s, f, left, due, to) {
            return Err(Fault {
                why,
                at: s,
                of: due,
            });
        }
        Ok(Head::Word(f, lexer::end(text, s)))
    }

    // Reads the places of the word f from the one of number i on, each at most so many levels deep.
    #[cycle(read_places_read_term)]
    fn read_places(
        &self,
        at: usize,
        left: usize,
        f: usize,
        i: usize,
        out: &mut [u8; 4096],
        to: usize,
        variables: &mut [u16; 64],
        seen: usize,
    ) -> Result<Reached, Fault>
        requires within { Within self.now.text.now at self.now.n to seen }
        requires tables { Tables self.now.words.now self.now.records.now }
        requires f_lt_n { f < self.now.n }
        requires i_bound { i ≤ tabled_places self.now.records.now f }
        ensures { ReadsPlaces self.now.text.now at left f i self.now.words.now self.now.n self.now.records.now out.old to variables.old seen out.new variables.new result }
    {
        if i == self.places(f) {
            return close(self.text, at, i, f, to, seen);
        }
        let s = lexer::start(self.text, at);
        if !lexer::is_mark(self.text, s, mark_before(i)) {
            return Err(Fault {
                why: Reason::PlacesWrong,
                at: s,
                of: f,
            });
        }
        let e = lexer::end(self.text, s);
        let due = self.kind(f, i);
        let p = self.read_term(e, left, due, out, to, variables, seen)?;
        let behind = self.read_places(p.at, left, f, i + 1, out, p.to, variables, p.seen)?;
        Ok(Reached {
            map: p.map + 2 * behind.map,
            ..behind
        })
    }

    // Reads a term of a kind that is due, at most so many levels deep.
    #[cycle(read_places_read_term)]
    fn read_term(
        &self,
        at: usize,
        left: usize,
        due: usize,
        out: &mut [u8; 4096],
        to: usize,
        variables: &mut [u16; 64],
        seen: usize,
    ) -> Result<Reached, Fault>
        requires within { Within self.now.text.now at self.now.n to seen }
        requires tables { Tables self.now.words.now self.now.records.now }
        ensures { ReadsTerm self.now.text.now at left due self.now.words.now self.now.n self.now.records.now out.old to variables.old seen out.new variables.new result }
    {
        let head = self.read_head(at, left, due, out, to, variables, seen)?;
        match head {
            Head::Leaf(leaf) => Ok(leaf),
            Head::Word(f, e) => {
                let p = self.read_places(e, left - 1, f, 0, out, to + maps::NODE, variables, seen)?;
                put_word(out, to, f, p.map);
                Ok(Reached { map: 1, ..p })
            }
        }
    }

    // Reads a term of a kind that is due from an offset of the text on, at most so many levels deep. Its bytes go behind the first of
    // `out`, and the offsets of its variables behind those seen. Where the text has more than 65,535 bytes, or an offset or a count is
    // out of range, the answer means nothing.
    pub fn read(
        &self,
        at: usize,
        left: usize,
        due: usize,
        out: &mut [u8; 4096],
        to: usize,
        variables: &mut [u16; 64],
        seen: usize,
    ) -> Result<Reached, Fault>
        ensures { Within self.now.text.now at self.now.n to seen → ReadsTerm self.now.text.now at left due self.now.words.now self.now.n self.now.records.now out.old to variables.old seen out.new variables.new result }
    {
        let words = self.words;
        let records = self.records;
        if !fits(
            self.text, at, words, self.n, records, out, to, variables, seen,
        ) {
            return Err(Fault {
                why: Reason::LongText,
                at,
                of: 0,
            });
        }
        self.read_term(at, left, due, out, to, variables, seen)
    }
}
