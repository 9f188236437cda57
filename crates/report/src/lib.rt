// The text that document 01's program `leftovers` prints for its standard input.
#![tactic(auto)]

ghost use Rattle.std.specs.Prelude.{◌≡◌, [], ◌∷◌, ◌++◌, ◌+◌, ◌-◌, ◌≤◌, length, take};
ghost use Rattle.wire.specs.Text.{decimal, hexadecimal};
ghost use Rattle.wire.specs.Printing.{entry_lines, refusal_text, entry_line};
ghost use Rattle.wire.specs.PrintComputed.{printed_from, printed};
ghost use Rattle.wire.specs.EntryCut.{cut_entries};
ghost use Rattle.complement.specs.Answers.{list_numbers};
ghost use Rattle.report.specs.Prints.{Prints};
ghost use Rattle.report.specs.Putting.{Put, cut_text, answer_text, TextFits};
ghost use Rattle.report.specs.Texts.{Puts, HasRoom};

use complement::ListRefusal;
use sizes::Size;

// A text that is put together in lent bytes: the first `end` of them.
#[derive(Drop)]
struct Text<'a> {
    bytes: &'a mut [u8],
    end: usize,
}

impl Text<'_> {
    // Puts bytes behind the text.
    fn put(&mut self, bytes: &[u8])
        requires { HasRoom self.old bytes.now }
        ensures { Puts self.old self.new bytes.now }
    {
        let end = self.end + bytes.len();
        self.bytes[self.end..end].copy_from_slice(bytes);
        self.end = end;
    }

    // Puts a number in decimal, and a byte behind it.
    fn put_number(&mut self, n: u64, behind: u8)
        requires { HasRoom self.old (decimal n ++ (behind ∷ [])) }
        ensures { Puts self.old self.new (decimal n ++ (behind ∷ [])) }
    {
        let mut digits = [0; 20];
        let k = io::decimal(n, &mut digits);
        self.put(&digits[..k]);
        self.put(&[behind]);
    }

    // Puts bytes in hexadecimal.
    fn put_hexadecimal(&mut self, bytes: &[u8])
        requires { HasRoom self.old (hexadecimal bytes.now) }
        ensures { Puts self.old self.new (hexadecimal bytes.now) }
    {
        for b in bytes {
            self.put(&[pieces::high(*b), pieces::low(*b)]);
        }
    }

    // Puts the line of an entry.
    fn put_line(&mut self, number: u64, entry: &[u8])
        requires { HasRoom self.old (entry_line number entry.now) }
        ensures { Puts self.old self.new (entry_line number entry.now) }
    {
        self.put_number(number, b' ');
        self.put_hexadecimal(entry);
        self.put(b"\n");
    }

    // Puts a line for each of the n entries that stand at the front of a listing.
    fn put_lines(&mut self, listing: &[u8], n: u64)
        requires { HasRoom self.old (entry_lines 1 (cut_entries n listing.now)) }
        ensures { Puts self.old self.new (entry_lines 1 (cut_entries n listing.now)) }
    {
        let mut rest = listing;
        for i in 0..n {
            let (entry, others) = rest.split_at(extents::entry_size(rest));
            self.put_line(i + 1, entry);
            rest = others;
        }
    }

    // Puts the text for n entries.
    fn put_listing(&mut self, listing: &[u8], n: u64)
        requires { HasRoom self.old (cut_text n listing.now) }
        ensures { Puts self.old self.new (cut_text n listing.now) }
    {
        self.put(b"leftovers ");
        self.put_number(n, b'\n');
        self.put_lines(listing, n);
    }

    // Puts the line of a refusal: number, input and place.
    fn put_refusal(&mut self, line: u64, input: u64, place: u64)
        requires { HasRoom self.old (refusal_text line input place) }
        ensures { Puts self.old self.new (refusal_text line input place) }
    {
        self.put(b"refused ");
        self.put_number(line, b' ');
        self.put_number(input, b' ');
        self.put_number(place, b'\n');
    }

    // Puts the text for an answer of list, with the entries in the lent slice.
    fn put_answer(&mut self, answer: Result<Size, ListRefusal>, listing: &[u8])
        requires in_bounds { self.old.end + 128 ≤ length self.old.bytes.now }
        requires text_fits { TextFits (list_numbers answer) listing.now (length self.old.bytes.now - self.old.end) }
        ensures { Puts self.old self.new (answer_text (list_numbers answer) listing.now) }
    {
        match numbers::list_numbers(answer) {
            [0, entries, ..] => self.put_listing(listing, entries),
            [line, input, place, ..] => self.put_refusal(line, input, place),
        }
    }
}

// Puts the text for a vocabulary and a pattern at the front of the lent bytes, and says how many bytes it is.
fn print_from(vocabulary: &[u8], pattern: &[u8], text: &mut [u8; 524288]) -> usize
    ensures { Put (printed_from vocabulary.now pattern.now) text.old 0 result text.new }
{
    let mut space = [0; 65536];
    let answer = complement::list(vocabulary, pattern, &mut space);
    let mut text = Text {
        bytes: text,
        end: 0,
    };
    text.put_answer(answer, &space);
    text.end
}

// Puts what the program `leftovers` prints for its standard input at the front of the lent bytes, and says how many
// bytes it is. Bytes behind the text stay as they were.
pub fn print(input: &[u8], text: &mut [u8; 524288]) -> usize
    ensures prints { Prints input.now text.old result text.new }
    ensures text_after { take result text.new ≡ printed input.now }
{
    print_from(pieces::vocabulary(input), pieces::pattern(input), text)
}
