// The lines of a text, and the columns of a line: where a place stands, as people count.
#![tactic(auto)]

ghost use Rattle.std.specs.Prelude.{◌≡◌, suc, take, drop};
ghost use Rattle.texts.specs.Complaints.{newlines, line_start, follows, columns, line_size};
ghost use Rattle.lines.specs.Lines.{line_of};

// The first n bytes, and all where there are fewer.
pub fn front(text: &[u8], n: usize) -> &[u8]
    ensures { result.now ≡ take n text.now }
{
    &text[..n.min(text.len())]
}

// The bytes from an offset on.
pub fn rest(text: &[u8], from: usize) -> &[u8]
    ensures { result.now ≡ drop from text.now }
{
    &text[from.min(text.len())..]
}

// How many bytes stand before the first end of a line.
pub fn line_size(text: &[u8]) -> usize
    ensures { result ≡ line_size text.now }
{
    text.iter().position(|b| *b == b'\n').unwrap_or(text.len())
}

// The line of a number, from 0; no byte where there are fewer.
pub fn line_of(text: &[u8], number: usize) -> &[u8]
    ensures { result.now ≡ line_of number text.now }
{
    let mut left = text;
    for _i in 0..number {
        if left.is_empty() {
            return left;
        }
        left = rest(left, line_size(left) + 1);
    }
    front(left, line_size(left))
}

// The offset at which the last line begins.
pub fn line_start(text: &[u8]) -> usize
    ensures { result ≡ line_start text.now }
{
    match text.iter().rposition(|b| *b == b'\n') {
        Some(end) => end + 1,
        None => 0,
    }
}

// Whether a byte begins no character: it goes on with one, or is a carriage return.
pub fn goes_on(b: u8) -> bool
    ensures { result ≡ follows b }
{
    matches!(b, b'\r' | 0x80..=0xbf)
}

// How many characters a text has.
pub fn count_columns(text: &[u8]) -> u64
    ensures { result ≡ columns text.now }
{
    text.iter().filter(|b| !goes_on(**b)).count() as u64
}

// The number of the line that the place behind a part of a text is in, from 1.
pub fn line_number(before: &[u8]) -> u64
    ensures { result ≡ suc (newlines before.now) }
{
    before.iter().filter(|b| **b == b'\n').count() as u64 + 1
}

// The column of the place behind the first bytes of its line, from 1.
pub fn column(last: &[u8]) -> u64
    ensures { result ≡ suc (columns last.now) }
{
    count_columns(last) + 1
}
