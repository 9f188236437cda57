// A vocabulary in words, read off a text into tables: the offsets of the names, and a record of ten bytes for each word.
#![tactic(auto)]

ghost use Rattle.std.specs.Prelude.{◌≡◌, ◌-◌, ◌<◌, ◌≤◌, length, take, set};
ghost use Rattle.wire.specs.Vocabulary.{most_kinds, most_words};
ghost use Rattle.texts.specs.Lexemes.{token_at};
ghost use Rattle.texts.specs.Lexicon.{most_places};
ghost use Rattle.texts.specs.LexiconReading.{name_why, kind_name_why, place_why};
ghost use Rattle.texts.specs.Tabled.{names_in};
ghost use Rattle.texts.specs.Files.{most_text};
ghost use Rattle.faults.specs.Reasons.{number_of, reason_of};
ghost use Rattle.lexicon.specs.Rows.{count_last, begun, placed, Tables};
ghost use Rattle.lexicon.specs.Stages.{on_turn, start_turn, word_turn, behind_word_turn, behind_place_turn, turn_of, stepped_of, KindPromise, WordPromise, PlacePromise, StepPromise};
ghost use Rattle.lexicon.specs.Answers.{KindsKnown, ended_of, LexiconPromise};

use faults::Reason;

// What may come next.
#[derive(Clone, Copy)]
enum Stage {
    AtStart,
    // Behind `kind`: its name.
    AtKind,
    BehindKind,
    // Behind = or |: a word.
    AtWord,
    BehindWord,
    // Behind ( or ,: the kind of a place.
    AtPlace,
    BehindPlace,
    // Behind the ) of a word's places.
    BehindPlaces,
}

// Why the token at an offset is no name that may stand behind the first n of a table; None where it is.
fn name_why(
    text: &[u8],
    at: usize,
    table: &[u16],
    n: usize,
    due: Reason,
    twice: Reason,
    many: Reason,
    most: usize,
) -> Option<Reason>
    requires { n ≤ length table.now }
    ensures { reason_of result ≡ name_why (number_of due) (number_of twice) (number_of many) most (names_in text.now (take n table.now)) (token_at text.now at) }
{
    if !lexer::is_identifier(text, at) {
        return Some(due);
    }
    if 32 < lexer::end(text, at) - at {
        return Some(Reason::LongName);
    }
    if lexer::find(text, at, table, n) < n {
        return Some(twice);
    }
    if n < most { None } else { Some(many) }
}

// Why the token at an offset is no kind of a place behind so many others; None where it is.
fn place_why(text: &[u8], at: usize, kinds: &[u16; 16], k: usize, places: usize) -> Option<Reason>
    requires { k ≤ most_kinds }
    ensures { reason_of result ≡ place_why (names_in text.now (take k kinds.now)) places (token_at text.now at) }
{
    if !lexer::is_identifier(text, at) {
        return Some(Reason::PlaceDue);
    }
    if 32 < lexer::end(text, at) - at {
        return Some(Reason::LongName);
    }
    if lexer::find(text, at, kinds, k) < k {
        if places < 8 {
            return None;
        }
        return Some(Reason::ManyPlaces);
    }
    if k < 16 {
        return Some(Reason::NotDeclared);
    }
    Some(Reason::KindBeyond)
}

// Gathers the names of the kinds, the tokens behind each `kind`, and says how many they are. One that may not follow those
// before it is passed over.
fn read_names(text: &[u8], kinds: &mut [u16; 16]) -> usize
    requires { length text.now ≤ most_text }
    ensures { KindsKnown text.now kinds.new result }
{
    *kinds = [0u16; 16];
    let mut k = 0;
    let mut at = 0;
    // Kept: a step passes a token with the blanks before it, so no iterator counts it, and a name's offset is what is stored.
    while at < text.len() {
        let s = lexer::start(text, at);
        at = lexer::end(text, s);
        if lexer::is_word(text, s, b"kind") {
            let name = lexer::start(text, at);
            let (due, twice, many) = (Reason::KindNameDue, Reason::KindTwice, Reason::ManyKinds);
            if name_why(text, name, kinds, k, due, twice, many, 16).is_none() {
                kinds[k] = name as u16;
                k += 1;
            }
        }
    }
    k
}

// What a token leads to, where it is not stored: to another stage, to the end of the vocabulary, or it is wrong.
// Kept: the vocabulary's end is neither a stage nor a fault, so an Option in a Result would say less than the three names.
#[derive(Clone, Copy)]
enum Turn {
    To(Stage),
    Ends,
    Wrong(Reason),
}

// Where a declaration may end: another begins, or the patterns do.
fn on_turn(text: &[u8], at: usize) -> Turn
    ensures { result ≡ on_turn (token_at text.now at) }
{
    if lexer::is_word(text, at, b"kind") {
        return Turn::To(Stage::AtKind);
    }
    Turn::Ends
}

// At the start a declaration is due.
fn start_turn(text: &[u8], at: usize) -> Turn
    ensures { result ≡ start_turn (token_at text.now at) }
{
    if lexer::is_word(text, at, b"kind") {
        return Turn::To(Stage::AtKind);
    }
    Turn::Wrong(Reason::KindDue)
}

// Another word behind the mark, or the end of the declaration.
fn word_turn(text: &[u8], at: usize, mark: u8) -> Turn
    ensures { result ≡ word_turn mark (token_at text.now at) }
{
    if lexer::is_mark(text, at, mark) {
        return Turn::To(Stage::AtWord);
    }
    on_turn(text, at)
}

// Behind a word its places, another word, or the end of the declaration.
fn behind_word_turn(text: &[u8], at: usize) -> Turn
    ensures { result ≡ behind_word_turn (token_at text.now at) }
{
    if lexer::is_mark(text, at, b'(') {
        return Turn::To(Stage::AtPlace);
    }
    word_turn(text, at, b'|')
}

// Behind a place another one, or the end of the places.
fn behind_place_turn(text: &[u8], at: usize) -> Turn
    ensures { result ≡ behind_place_turn (token_at text.now at) }
{
    if lexer::is_mark(text, at, b',') {
        return Turn::To(Stage::AtPlace);
    }
    if lexer::is_mark(text, at, b')') {
        return Turn::To(Stage::BehindPlaces);
    }
    Turn::Wrong(Reason::PlaceEnd)
}

// What the token at an offset leads to in a stage; one that is to be stored is not looked at.
fn turn_at(text: &[u8], at: usize, stage: Stage) -> Turn
    ensures { result ≡ turn_of (token_at text.now at) stage }
{
    match stage {
        Stage::AtStart => start_turn(text, at),
        Stage::AtKind => Turn::To(Stage::BehindKind),
        Stage::BehindKind => word_turn(text, at, b'='),
        Stage::AtWord => Turn::To(Stage::BehindWord),
        Stage::BehindWord => behind_word_turn(text, at),
        Stage::AtPlace => Turn::To(Stage::BehindPlace),
        Stage::BehindPlace => behind_place_turn(text, at),
        Stage::BehindPlaces => word_turn(text, at, b'|'),
    }
}

// Behind a token: the stage and the numbers of kinds and words, or the vocabulary is over, or the token is at fault.
// Kept: as with Turn, the end of the vocabulary is a third case.
#[derive(Clone, Copy)]
enum Stepped {
    On(Stage, usize, usize),
    Over,
    Fails(Reason),
}

// A vocabulary that was read: how many kinds and words it has, and the offset behind its last token.
#[derive(Clone, Copy)]
pub struct Counts {
    pub kinds: usize,
    pub words: usize,
    pub at: usize,
}

// Why a text begins with no vocabulary, and the offset at which that stands.
#[derive(Clone, Copy)]
pub struct Refusal {
    pub why: Reason,
    pub at: usize,
}

// How many places the last of n words has.
fn places_last(records: &[u8; 960], n: usize) -> usize
    requires { n ≤ most_words }
    ensures { result ≡ count_last n records.now }
{
    if n == 0 {
        0
    } else {
        usize::from(records[10 * (n - 1) + 1])
    }
}

// Stores the name of a word and begins its record, without places.
fn begin_word(kind: u8, at: usize, words: &mut [u16; 96], records: &mut [u8; 960], n: usize)
    requires n_lt_most_words { n < most_words }
    requires at_le_most_text { at ≤ most_text }
    ensures { (words.new ≡ set words.old n at) × (records.new ≡ begun kind n records.old) }
{
    words[n] = at as u16;
    records[10 * n] = kind;
    records[10 * n + 1] = 0;
}

// The kind that began last.
fn last_kind(c: usize) -> u8
    requires { c ≤ most_kinds }
    ensures { result ≡ c - 1 }
{
    c.saturating_sub(1) as u8
}

// The token at an offset is the name of a kind, behind the first c.
fn step_kind(text: &[u8], at: usize, kinds: &[u16; 16], c: usize, n: usize) -> Stepped
    requires { c ≤ most_kinds }
    ensures { KindPromise c n (kind_name_why (names_in text.now (take c kinds.now)) (token_at text.now at)) result }
{
    let (due, twice, many) = (Reason::KindNameDue, Reason::KindTwice, Reason::ManyKinds);
    if let Some(why) = name_why(text, at, kinds, c, due, twice, many, 16) {
        return Stepped::Fails(why);
    }
    Stepped::On(Stage::BehindKind, c + 1, n)
}

// The token at an offset is the name of a word.
fn step_word(
    text: &[u8],
    at: usize,
    c: usize,
    n: usize,
    words: &mut [u16; 96],
    records: &mut [u8; 960],
) -> Stepped
    requires at_le_most_text { (at ≤ most_text) × (c ≤ most_kinds) }
    requires tables { Tables n words.old records.old }
    ensures { WordPromise text.now c n at words.old records.old words.new records.new result }
{
    let (due, twice, many) = (Reason::WordDue, Reason::WordTwice, Reason::ManyWords);
    if let Some(why) = name_why(text, at, words, n, due, twice, many, 96) {
        return Stepped::Fails(why);
    }
    begin_word(last_kind(c), at, words, records, n);
    Stepped::On(Stage::BehindWord, c, n + 1)
}

// Adds a place to the last of n words, which has m.
fn add_place(kind: u8, m: usize, records: &mut [u8; 960], n: usize)
    requires { (n ≤ most_words) × (m < most_places) }
    ensures { records.new ≡ placed kind m n records.old }
{
    if n == 0 {
        return;
    }
    let from = 10 * (n - 1);
    records[from + 2 + m] = kind;
    records[from + 1] = (m + 1) as u8;
}

// The token at an offset is the kind of a place.
fn step_place(
    text: &[u8],
    at: usize,
    kinds: &[u16; 16],
    k: usize,
    c: usize,
    n: usize,
    words: &[u16; 96],
    records: &mut [u8; 960],
) -> Stepped
    requires k_le_most_kinds { k ≤ most_kinds }
    requires tables { Tables n words.now records.old }
    ensures { PlacePromise text.now (names_in text.now (take k kinds.now)) c n at words.now records.old records.new result }
{
    let m = places_last(records, n);
    if let Some(why) = place_why(text, at, kinds, k, m) {
        return Stepped::Fails(why);
    }
    let kind = lexer::find(text, at, kinds, k) as u8;
    add_place(kind, m, records, n);
    Stepped::On(Stage::BehindPlace, c, n)
}

// What follows the token at an offset where it is not stored.
fn step_mark(text: &[u8], at: usize, stage: Stage, c: usize, n: usize) -> Stepped
    ensures { result ≡ stepped_of c n (turn_of (token_at text.now at) stage) }
{
    match turn_at(text, at, stage) {
        Turn::To(next) => Stepped::On(next, c, n),
        Turn::Ends => Stepped::Over,
        Turn::Wrong(why) => Stepped::Fails(why),
    }
}

// Goes on by the token at an offset.
fn step(
    text: &[u8],
    at: usize,
    kinds: &[u16; 16],
    k: usize,
    stage: Stage,
    c: usize,
    n: usize,
    words: &mut [u16; 96],
    records: &mut [u8; 960],
) -> Stepped
    requires at_le_most_text { (at ≤ most_text) × (k ≤ most_kinds) × (c ≤ k) }
    requires tables { Tables n words.old records.old }
    ensures { StepPromise text.now (names_in text.now (take k kinds.now)) stage c n at words.old records.old words.new records.new result }
{
    match stage {
        Stage::AtKind => step_kind(text, at, kinds, c, n),
        Stage::AtWord => step_word(text, at, c, n, words, records),
        Stage::AtPlace => step_place(text, at, kinds, k, c, n, words, records),
        _ => step_mark(text, at, stage, c, n),
    }
}

// The vocabulary ends before the token at an offset, behind the one that ends at another; it has a word at least.
fn ended(k: usize, n: usize, end: usize, at: usize) -> Result<Counts, Refusal>
    ensures { result ≡ ended_of k n end at }
{
    if n == 0 {
        return Err(Refusal {
            why: Reason::NoWords,
            at,
        });
    }
    Ok(Counts {
        kinds: k,
        words: n,
        at: end,
    })
}

// Tables without words.
fn clear(words: &mut [u16; 96], records: &mut [u8; 960])
    ensures { Tables 0 words.new records.new }
{
    *words = [0u16; 96];
    *records = [0u8; 960];
}

// The declarations, where the names of the k kinds are known.
fn read_rows(
    text: &[u8],
    kinds: &[u16; 16],
    k: usize,
    words: &mut [u16; 96],
    records: &mut [u8; 960],
) -> Result<Counts, Refusal>
    requires text_len_bound { length text.now ≤ most_text }
    requires kinds_known { KindsKnown text.now kinds.now k }
    ensures { LexiconPromise text.now kinds.now words.new records.new result }
{
    clear(words, records);
    let mut at = 0;
    let mut stage = Stage::AtStart;
    let mut c = 0;
    let mut n = 0;
    // Kept: each token says whether another is read, so no iterator counts them.
    loop {
        let s = lexer::start(text, at);
        match step(text, s, kinds, k, stage, c, n, words, records) {
            Stepped::On(next, begun, stored) => {
                at = lexer::end(text, s);
                stage = next;
                c = begun;
                n = stored;
            }
            Stepped::Over => return ended(k, n, at, s),
            Stepped::Fails(why) => return Err(Refusal { why, at: s }),
        }
    }
}

// Reads the vocabulary that a text begins with into tables: the offsets of the names of its kinds and of its words, and a record
// of each word. A text of more than 65,535 bytes is not read.
pub fn read_lexicon(
    text: &[u8],
    kinds: &mut [u16; 16],
    words: &mut [u16; 96],
    records: &mut [u8; 960],
) -> Result<Counts, Refusal>
    ensures { length text.now ≤ most_text → LexiconPromise text.now kinds.new words.new records.new result }
{
    if 65535 < text.len() {
        return Err(Refusal {
            why: Reason::LongText,
            at: 0,
        });
    }
    let k = read_names(text, kinds);
    read_rows(text, kinds, k, words, records)
}
