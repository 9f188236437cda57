// Patterns and entries in the engineers' own words.
//
// The tables hold the offsets of tokens in the text that was read: kinds, words and variables, and how many places each word has.
#![tactic(auto)]

ghost use Rattle.std.specs.Prelude.{◌≡◌, map, get_or};
ghost use Rattle.wire.specs.Map.{read_map};
ghost use Rattle.texts.specs.Lexemes.{token_at};
ghost use Rattle.texts.specs.Names.{name_at};
ghost use Rattle.texts.specs.Saying.{say_term, say_behind, say_phrase};
ghost use Rattle.pages.specs.Pages.{Puts};
ghost use Rattle.wording.specs.Tables.{tables_of};
ghost use Rattle.wording.specs.Says.{Says, separator, kind_text};

use pages::Page;

// The byte of an open place at the root, that of the first variable, and how many levels a term has at most.
const WHOLE_BYTE: u8 = 255;

const FIRST_NAME_BYTE: u8 = 128;

const MOST_LEVELS: usize = 32;

// The tables that the numbers of an entry are looked up in.
#[derive(Clone, Copy)]
pub struct Tables<'a> {
    pub text: &'a [u8],
    pub kinds: &'a [u16],
    pub words: &'a [u16],
    pub places: &'a [u8],
    pub variables: &'a [u16],
}

// Puts the token that begins at an offset of the text; nothing past its end.
pub fn put_token(text: &[u8], at: usize, page: &mut Page)
    ensures { Puts page.old page.new (token_at text.now at) }
{
    page.put(lexer::token(text, at));
}

// Puts the name of number i of a table; nothing where the table has none.
pub fn put_name(text: &[u8], table: &[u16], i: usize, page: &mut Page)
    ensures { Puts page.old page.new (name_at (map (token_at text.now) table.now) i) }
{
    if let Some(at) = table.get(i) {
        put_token(text, usize::from(*at), page);
    }
}

// Puts what stands before the place of number i.
fn put_separator(i: usize, page: &mut Page)
    ensures { Puts page.old page.new (separator i) }
{
    page.put(if i == 0 { b"(" } else { b", " });
}

impl Tables<'_> {
    // Writes a pattern or an entry, which begins with its kind, in words.
    pub fn write_phrase(&self, entry: &[u8], page: &mut Page)
        ensures { Puts page.old page.new (say_phrase (tables_of self.now) entry.now) }
    {
        let [kind, root, ..] = entry else {
            return;
        };
        let kind = usize::from(*kind);
        if *root == WHOLE_BYTE {
            page.put(b"_");
            self.put_kind(kind, page);
            return;
        }
        self.write_term(&entry[1..], MOST_LEVELS, page);
        if *root >= FIRST_NAME_BYTE {
            self.put_kind(kind, page);
        }
    }

    // Puts the name of a kind behind what is of that kind.
    fn put_kind(&self, kind: usize, page: &mut Page)
        ensures { Puts page.old page.new (kind_text self.now.text.now self.now.kinds.now kind) }
    {
        page.put(b": ");
        put_name(self.text, self.kinds, kind, page);
    }

    // Writes the term at the front of some bytes, at most `left` levels deep, and returns what stands behind it.
    #[cycle(terms)]
    fn write_term<'a>(&self, bytes: &'a [u8], left: usize, page: &mut Page) -> &'a [u8]
        ensures { Says (say_term (tables_of self.now) left bytes.now) page.old page.new result.now }
    {
        if left == 0 {
            return bytes;
        }
        let [first, rest @ ..] = bytes else {
            return bytes;
        };
        if *first < FIRST_NAME_BYTE {
            let word = usize::from(*first);
            put_name(self.text, self.words, word, page);
            return self.write_behind(rest, left - 1, self.place_count(word), page);
        }
        put_name(
            self.text,
            self.variables,
            usize::from(*first - FIRST_NAME_BYTE),
            page,
        );
        rest
    }

    // Writes what stands behind a word's name, its map at the front: n places in parentheses, or nothing where n is 0. Where the map has a
    // bit, the place has a term; the others are open.
    #[cycle(terms)]
    fn write_behind<'a>(&self, bytes: &'a [u8], left: usize, n: usize, page: &mut Page) -> &'a [u8]
        ensures { Says (say_behind (say_term (tables_of self.now) left) n (read_map bytes.now)) page.old page.new result.now }
    {
        if bytes.len() < maps::BYTES {
            return bytes;
        }
        let mut map = maps::read(bytes, 0);
        let mut rest = &bytes[maps::BYTES..];
        if n == 0 {
            return rest;
        }
        for i in 0..n {
            put_separator(i, page);
            if map % 2 == 1 {
                rest = self.write_term(rest, left, page);
            } else {
                page.put(b"_");
            }
            map /= 2;
        }
        page.put(b")");
        rest
    }

    // How many places a word has; none where the table does not have it.
    fn place_count(&self, word: usize) -> usize
        ensures { result ≡ get_or self.now.places.now word 0 }
    {
        self.places.get(word).map_or(0, |n| usize::from(*n))
    }
}
