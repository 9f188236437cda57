// The text of the cases: its parts, its numbers, and its bytes in hexadecimal.
ghost use Rattle.std.specs.Prelude.{◌≤◌};

// What a text has before the first such byte, and what it has from that byte on.
pub(crate) fn cut(text: &[u8], byte: u8) -> (&[u8], &[u8]) {
    match text.iter().position(|b| *b == byte) {
        Some(at) => text.split_at(at),
        None => (text, &[]),
    }
}

// A hexadecimal digit's value, and 15 of any other character.
fn digit(character: u8) -> u8
    ensures { result ≤ 15 }
{
    match character {
        b'0'..=b'9' => character - b'0',
        b'a'..=b'f' => character - b'a' + 10,
        _ => 15,
    }
}

// The number of 64 bits that the decimal digits at the front of a text write.
fn leading(text: &[u8]) -> usize {
    text.iter().take_while(|b| b.is_ascii_digit()).fold(
        0usize,
        |n, b| n.wrapping_mul(10).wrapping_add(usize::from(digit(*b))),
    )
}

// The number behind the first such byte.
pub(crate) fn number(text: &[u8], byte: u8) -> usize {
    match cut(text, byte) {
        (_, [_, digits @ ..]) => leading(digits),
        _ => 0,
    }
}

// What is decoded so far: the first so many bytes of a buffer. What has no room there is left out.
#[derive(Drop)]
struct Decoded<'a> {
    buffer: &'a mut [u8],
    len: usize,
}

impl<'a> Decoded<'a> {
    fn push(&mut self, byte: u8) {
        let n = self.len;
        if n < self.buffer.len() {
            self.buffer[n] = byte;
            self.len = n + 1;
        }
    }

    // Adds so many bytes of the buffer, from an offset on, one by one. They may reach into the copy.
    fn repeat(&mut self, from: usize, count: usize) {
        for at in (from..self.buffer.len()).take(count) {
            if let Some(byte) = self.buffer.get(at).copied() {
                self.push(byte);
            }
        }
    }

    // Adds the bytes of a token.
    fn token(&mut self, token: &[u8]) {
        match token {
            [b'[', run @ ..] => self.repeat(leading(run), number(run, b',')),
            [high, low, ..] => self.push(16 * digit(*high) + digit(*low)),
            _ => {}
        }
    }

    fn bytes(self) -> &'a [u8] {
        let Decoded { buffer, len } = self;
        buffer.get(..len).unwrap_or(&[])
    }
}

// Writes the bytes that a text stands for into a buffer. Blanks stand between the tokens: two hexadecimal digits
// for a byte, or [FROM,COUNT] for COUNT bytes once more, from offset FROM on.
pub(crate) fn decode<'a>(text: &[u8], buffer: &'a mut [u8]) -> &'a [u8] {
    let mut decoded = Decoded { buffer, len: 0 };
    for token in text.split(|b| *b == b' ') {
        decoded.token(token);
    }
    decoded.bytes()
}
