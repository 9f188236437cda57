// The pieces of what the program `leftovers` reads and prints: the two parts of its standard input, and the digits of
// a byte.
#![tactic(auto)]

ghost use Rattle.std.specs.Prelude.{◌≡◌, ◌/◌, ◌%◌, ◌<◌, take};
ghost use Rattle.wire.specs.Text.{digit as Text·digit};
ghost use Rattle.wire.specs.Printing.{most_input, vocabulary_part, pattern_part};

// The bytes that are taken.
fn taken(input: &[u8]) -> &[u8]
    ensures { result.now ≡ take most_input input.now }
{
    &input[..input.len().min(65536)]
}

// The vocabulary and the pattern in bytes that are taken. The first two bytes give the vocabulary's length, the high byte first.
fn split(taken: &[u8]) -> (&[u8], &[u8])
    ensures vocabulary { result.0.now ≡ vocabulary_part taken.now }
    ensures pattern { result.1.now ≡ pattern_part taken.now }
{
    let [high, low, rest @ ..] = taken else {
        return (&[], &[]);
    };
    let length = 256 * usize::from(*high) + usize::from(*low);
    rest.split_at(length.min(rest.len()))
}

// The vocabulary in the program's standard input.
pub fn vocabulary(input: &[u8]) -> &[u8]
    ensures { result.now ≡ vocabulary_part (take most_input input.now) }
{
    split(taken(input)).0
}

// The pattern in the program's standard input.
pub fn pattern(input: &[u8]) -> &[u8]
    ensures { result.now ≡ pattern_part (take most_input input.now) }
{
    split(taken(input)).1
}

// A hexadecimal digit, in lower case.
fn digit(d: u8) -> u8
    requires { d < 16 }
    ensures { result ≡ Text·digit d }
{
    if d < 10 { b'0' + d } else { b'a' + d - 10 }
}

// The first hexadecimal digit of a byte.
pub fn high(b: u8) -> u8
    ensures { result ≡ Text·digit (b / 16) }
{
    digit(b / 16)
}

// The second.
pub fn low(b: u8) -> u8
    ensures { result ≡ Text·digit (b % 16) }
{
    digit(b % 16)
}
