// The tokens of a text, by the offsets at which they begin: where they end, which ones they are, and which are the same.
#![tactic(auto)]

ghost use Rattle.std.specs.Prelude.{◌≡◌, ◌∷◌, [], map, ◌+◌, take, drop};
ghost use Rattle.texts.specs.Lexemes.{is_blank, is_name_byte, is_run, blanks, run_size, token_size, token_at};
ghost use Rattle.texts.specs.Names.{same, begins_name, is_identifier, is_variable, index_in};
ghost use Rattle.lexer.specs.Bytes.{stops_at, in_comment};

fn is_blank(b: u8) -> bool
    ensures { result ≡ is_blank b }
{
    matches!(b, b' ' | b'\n' | b'\t' | b'\r')
}

// Letters and digits are asked for first, by themselves: most bytes are of these, and of one chain of tests the compiler asks
// for the others first.
fn is_name(b: u8) -> bool
    ensures { result ≡ is_name_byte b }
{
    if b.is_ascii_alphanumeric() {
        return true;
    }
    b == b'_' || b == b'-' || !b.is_ascii()
}

// Whether a byte ends the blanks before it.
fn stops(commented: bool, b: u8) -> bool
    ensures { result ≡ stops_at commented b }
{
    !commented && b != b'#' && !is_blank(b)
}

// Whether what stands behind a byte is in a comment.
fn in_comment(commented: bool, b: u8) -> bool
    ensures { result ≡ in_comment commented b }
{
    if commented { b != b'\n' } else { b == b'#' }
}

// The offset of the first token from an offset on: blanks and comments are passed.
pub fn start(text: &[u8], at: usize) -> usize
    ensures { result ≡ at + blanks (drop at text.now) }
{
    let mut commented = false;
    for i in at..text.len() {
        if stops(commented, text[i]) {
            return i;
        }
        commented = in_comment(commented, text[i]);
    }
    at.max(text.len())
}

// How many characters of names stand at the front.
fn run_size(text: &[u8]) -> usize
    ensures { result ≡ run_size text.now }
{
    text.iter().position(|b| !is_name(*b)).unwrap_or(text.len())
}

// Whether a byte begins a token that goes on as long as characters of names follow.
fn is_run(b: u8) -> bool
    ensures { result ≡ is_run b }
{
    is_name(b) || b == b'?'
}

// The offset behind the token that begins at an offset.
pub fn end(text: &[u8], at: usize) -> usize
    ensures { result ≡ at + token_size (drop at text.now) }
{
    match text.get(at) {
        None => at,
        Some(b) if is_run(*b) => at + 1 + run_size(&text[at + 1..]),
        Some(_) => at + 1,
    }
}

// The bytes of the token that begins at an offset.
pub fn token(text: &[u8], at: usize) -> &[u8]
    ensures { result.now ≡ token_at text.now at }
{
    text.get(at..end(text, at)).unwrap_or(&[])
}

// Whether the token that begins at an offset is a mark of one byte.
pub fn is_mark(text: &[u8], at: usize, mark: u8) -> bool
    ensures { result ≡ same (token_at text.now at) (mark ∷ []) }
{
    text.get(at) == Some(&mark) && end(text, at) == at + 1
}

// Whether the tokens that begin at two offsets have the same bytes.
pub fn same_token(text: &[u8], a: usize, b: usize) -> bool
    ensures { result ≡ same (token_at text.now a) (token_at text.now b) }
{
    slices::equal(token(text, a), token(text, b))
}

// The number of the token at an offset among those that begin at the first n offsets of a table; as many as there are where
// it is none of them. Kept: that number and not an Option, as the contract cites `index_in`, by which the texts' names are counted.
pub fn find(text: &[u8], at: usize, table: &[u16], n: usize) -> usize
    ensures { result ≡ index_in (token_at text.now at) (map (token_at text.now) (take n table.now)) }
{
    let word = token(text, at);
    let begins = &table[..n.min(table.len())];
    begins
        .iter()
        .position(|i| is_word(text, usize::from(*i), word))
        .unwrap_or(begins.len())
}

// Whether the token that begins at an offset has the bytes of a word. These are compared before the token's end is looked for,
// as most tokens of a table are other words. It is put in place where it is called, which `find` does for each entry.
#[inline(always)]
pub fn is_word(text: &[u8], at: usize, word: &[u8]) -> bool
    ensures { result ≡ same (token_at text.now at) word.now }
{
    let rest = text.get(at..).unwrap_or(&[]);
    slices::equal(&rest[..word.len().min(rest.len())], word) && end(text, at) - at == word.len()
}

// Whether a character of names stands at an offset.
fn begins_name(text: &[u8], at: usize) -> bool
    ensures { result ≡ begins_name (drop at text.now) }
{
    text.get(at).is_some_and(|b| is_name(*b))
}

// Whether the token that begins at an offset is a name that a kind, a word or a label may have.
pub fn is_identifier(text: &[u8], at: usize) -> bool
    ensures { result ≡ is_identifier (token_at text.now at) }
{
    begins_name(text, at) && !is_word(text, at, b"_") && !is_word(text, at, b"kind")
}

// Whether the token that begins at an offset is a ? with a name behind it.
pub fn is_variable(text: &[u8], at: usize) -> bool
    ensures { result ≡ is_variable (token_at text.now at) }
{
    text.get(at) == Some(&b'?') && begins_name(text, at + 1)
}
