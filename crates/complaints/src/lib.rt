// A fault of a text, told to people: line and column, what is wrong, the line, and a mark under the place.
#![tactic(auto)]

ghost use Rattle.std.specs.Prelude.{◌≡◌, ◌||◌, ◌&&◌, eqb, map, get_or, []};
ghost use Rattle.wire.specs.Row.{write_row};
ghost use Rattle.texts.specs.Lexemes.{lexemes_from, token_at};
ghost use Rattle.texts.specs.Names.{same, mark, opening};
ghost use Rattle.texts.specs.Faults.{kind_due, term_due, other_kind, places_wrong, places_over};
ghost use Rattle.texts.specs.Complaints.{token_then, commas_in, joins_words, no_pattern_text, token_behind, unknown_text, order_marked, reason_text, complaint};
ghost use Rattle.dues.specs.Parts.{known_of};
ghost use Rattle.pages.specs.Pages.{Puts};
ghost use Rattle.complaints.specs.Parts.{fault, seen_text, drawn, about_places, plain, other_text, place_text, picture_text};

use dues::Known;
use pages::Page;

// ---- reasons that have something of their own to say

// Kept: reasons are numbers here, as `complain`, which README names, promises a text for every number.
const KIND_DUE: usize = 1;

const PATTERN_DUE: usize = 14;

const TERM_DUE: usize = 15;

const UNKNOWN_WORD: usize = 16;

const OTHER_KIND: usize = 17;

const PLACES_WRONG: usize = 18;

const PLACES_OVER: usize = 25;

// ---- what is said of the token at fault

// Puts the token at fault and the text behind it; nothing where the text is empty.
fn put_behind(text: &[u8], at: usize, ending: &[u8], page: &mut Page)
    ensures { Puts page.old page.new (token_then (token_at text.now at) ending.now) }
{
    if ending.is_empty() {
        return;
    }
    wording::put_token(text, at, page);
    page.put(ending);
}

// What is said of each reason, by its number, before the token at fault ..
static REASONS: [&[u8]; 29] = [
    b"",
    b"`kind` is due here, as a text begins with its kinds",
    b"a name is due here, for the kind",
    b"32 bytes are the most for a name, and this one has more",
    b"kind ",
    b"16 kinds are the most, and this is one more",
    b"a name is due here, for a word",
    b"word ",
    b"96 words are the most, and this is one more",
    b"the name of a kind is due here",
    b"kind ",
    b"8 places are the most, and this is one more",
    b"a , or a ) is due here",
    b"no kind up to here has a word; words stand behind =, as in kind button = up | down",
    b"",
    b"",
    b"",
    b"",
    b"",
    b"32 levels are the most, and this is one more",
    b"4096 bytes are the most for a pattern or a situation, and this one has more",
    b"",
    b"64 names are the most in a pattern, and this is one more",
    b"a : and a kind are due here, as in _: step",
    b"65535 bytes are the most for a text, and this one has more",
    b"",
    b"a situation has no open place and no name",
    b"a question begins with the label of the pattern before it, and this is another name",
    b"kind ",
];

// .. and behind it. Where there is nothing the token is not named: it stands in the line that is shown.
static ENDINGS: [&[u8]; 29] = [
    b"",
    b"",
    b"",
    b"",
    b" is declared twice",
    b"",
    b"",
    b" is declared twice",
    b"",
    b"",
    b" is used and not declared",
    b"",
    b"",
    b"",
    b"",
    b"",
    b"",
    b"",
    b"",
    b"",
    b"",
    b" stands twice in this pattern",
    b"",
    b"",
    b"",
    b"",
    b"",
    b"",
    b" is none of the first 16 kinds, and 16 are the most",
];

// What stands at a number of a table; nothing where it has no such number.
fn message(table: &[&'static [u8]], why: usize) -> &'static [u8]
    ensures { result.now ≡ get_or (map (λ x. x.now) table.now) why [] }
{
    if why < table.len() { table[why] } else { b"" }
}

// Puts what is said of the token at an offset, for a reason that is about no kind and no word.
fn put_plain(text: &[u8], at: usize, why: usize, page: &mut Page)
    ensures { Puts page.old page.new (plain (token_at text.now at) why) }
{
    page.put(message(&REASONS, why));
    put_behind(text, at, message(&ENDINGS, why), page);
}

// Whether a mark stands at an offset that may have been meant for the words of a kind.
fn joins_words(text: &[u8], at: usize) -> bool
    ensures { result ≡ joins_words (token_at text.now at) }
{
    lexer::is_mark(text, at, b',')
        || lexer::is_mark(text, at, b'|')
        || lexer::is_mark(text, at, b'=')
}

// Puts what is said of the token at an offset where a pattern is due.
fn put_no_pattern(text: &[u8], at: usize, page: &mut Page)
    ensures { Puts page.old page.new (no_pattern_text (token_at text.now at)) }
{
    if lexer::is_word(text, at, b"kind") {
        page.put(b"all kinds are declared before the first pattern");
    } else if joins_words(text, at) {
        page.put(
            b"a pattern is due here; no mark stands between patterns, and the words of a kind stand behind =, with a | between them",
        );
    } else {
        page.put(b"a pattern is due here");
    }
}

// Puts what is said of the name at an offset that is no word, by the token behind it.
fn put_unknown(text: &[u8], at: usize, page: &mut Page)
    ensures { Puts page.old page.new (unknown_text (token_at text.now at) (token_behind text.now at)) }
{
    let behind = lexer::start(text, lexer::end(text, at));
    if lexer::is_mark(text, behind, b'?') {
        page.put(b"a question stands behind its pattern, and begins with its label");
        return;
    }
    page.put(b"no word ");
    wording::put_token(text, at, page);
    page.put(b" in this vocabulary");
    if lexer::is_variable(text, behind) {
        page.put(b"; in a question a blank is due behind the ?");
    }
}

// Whether a byte order mark stands at an offset where a text begins.
fn is_marked(text: &[u8], at: usize, why: usize) -> bool
    ensures { result ≡ (eqb why kind_due && order_marked (token_at text.now at)) }
{
    why == KIND_DUE && lines::front(lexer::token(text, at), 3) == b"\xef\xbb\xbf".as_slice()
}

// Puts what is said of the token at an offset, for a reason that is about no kind and no places.
fn put_other(text: &[u8], at: usize, why: usize, page: &mut Page)
    ensures { Puts page.old page.new (other_text (token_at text.now at) (token_behind text.now at) why) }
{
    match why {
        PATTERN_DUE => put_no_pattern(text, at, page),
        UNKNOWN_WORD => put_unknown(text, at, page),
        _ if is_marked(text, at, why) => page.put(
            b"a byte order mark stands here, and a text begins with `kind`",
        ),
        _ => put_plain(text, at, why, page),
    }
}

// Whether a reason is about the kind that is due.
fn names_kind(why: usize) -> bool
    ensures { result ≡ (eqb why term_due || eqb why other_kind) }
{
    matches!(why, TERM_DUE | OTHER_KIND)
}

// Whether a reason is about the places that a word takes.
fn counts_places(why: usize) -> bool
    ensures { result ≡ (eqb why places_wrong || eqb why places_over) }
{
    matches!(why, PLACES_WRONG | PLACES_OVER)
}

// Whether a ( stands at an offset where no place is due.
fn opens(text: &[u8], at: usize, why: usize) -> bool
    ensures { result ≡ (about_places why && same (token_at text.now at) (mark opening)) }
{
    matches!(why, PLACES_WRONG | PLACES_OVER | PATTERN_DUE) && lexer::is_mark(text, at, b'(')
}

// Puts what is wrong.
fn put_reason(known: &Known, why: usize, at: usize, of: usize, page: &mut Page)
    ensures { Puts page.old page.new (reason_text (known_of known.now) (fault why at of) (token_at known.now.text.now at) (token_behind known.now.text.now at) (commas_in 0 (lexemes_from known.now.text.now at))) }
{
    if names_kind(why) {
        known.put_due(of, page);
    } else if opens(known.text, at, why) {
        page.put(b"no places are due here, as what stands before takes none or has them all");
    } else if counts_places(why) {
        known.put_places(why, at, of, page);
    } else {
        put_other(known.text, at, why, page);
    }
}

// ---- the line, and the mark below it

// How the bytes of a line are put: as they are shown, or as they are padded for the mark below.
#[derive(Clone, Copy)]
enum Row {
    Shown,
    Padded,
}

// What stands for a byte of a line: nothing for a carriage return, and padded only for the first of a character's bytes.
fn seen(b: u8, row: Row) -> Option<u8>
    ensures { seen_text result ≡ drawn row b }
{
    match row {
        Row::Shown => match b {
            b'\r' => None,
            b'\t' => Some(b),
            0..=31 | 127 => Some(b'?'),
            _ => Some(b),
        },
        Row::Padded => {
            if lines::goes_on(b) {
                None
            } else if b == b'\t' {
                Some(b)
            } else {
                Some(b' ')
            }
        }
    }
}

// Puts what stands for a byte of a line.
fn put_seen(b: u8, row: Row, page: &mut Page)
    ensures { Puts page.old page.new (drawn row b) }
{
    if let Some(c) = seen(b, row) {
        page.put(&[c]);
    }
}

// Puts what stands for the bytes of a part of a line.
fn put_row(part: &[u8], row: Row, page: &mut Page)
    ensures { Puts page.old page.new (write_row (drawn row) part.now) }
{
    for b in part {
        put_seen(*b, row, page);
    }
}

// Puts a line, and the mark below it behind the part that stands before the place.
fn put_picture(line: &[u8], ahead: &[u8], page: &mut Page)
    ensures { Puts page.old page.new (picture_text line.now ahead.now) }
{
    page.put(b"\n");
    put_row(lines::front(line, lines::line_size(line)), Row::Shown, page);
    page.put(b"\n");
    put_row(ahead, Row::Padded, page);
    page.put(b"^\n");
}

// Puts line and column of the place behind a part of a text; of its last line, that part has the bytes last.
fn put_place(before: &[u8], last: &[u8], page: &mut Page)
    ensures { Puts page.old page.new (place_text before.now last.now) }
{
    page.put(b"line ");
    page.put_number(lines::line_number(before));
    page.put(b", column ");
    page.put_number(lines::column(last));
    page.put(b": ");
}

// Puts what is to be said to people of a fault of a text: its reason, its offset, and the kind or word that it is about.
pub fn complain(known: &Known, why: usize, at: usize, of: usize, page: &mut Page)
    ensures { Puts page.old page.new (complaint known.now.text.now (known_of known.now) (fault why at of)) }
{
    let text = known.text;
    let before = lines::front(text, at);
    let start = lines::line_start(before);
    let last = lines::rest(before, start);
    put_place(before, last, page);
    put_reason(known, why, at, of, page);
    put_picture(lines::rest(text, start), last, page);
}
