// A line a case. Its first word says what is asked, a number may follow, then comes the label, and behind a colon
// the bytes, in which a slash stands between a pattern or a book and what goes with it:
//
//   under LABEL: VOCABULARY                       the vocabulary of the lines below it
//   vocabulary LABEL: VOCABULARY                  check
//   term LABEL: TERM                              check; tells words, level, 1 if complete and 0 if not, and the gap
//   match LENGTH LABEL: PATTERN / SITUATION       match, with a table of so many numbers
//   part NAME LABEL: PATTERN / SITUATION          part, with a name's number
//   list LENGTH LABEL: PATTERN                    list, into so many bytes; tells them
//   sum LENGTH LABEL: PATTERN                     list; tells a sum of the entries' bytes
//   find LENGTH LABEL: PATTERN / ENTRY            list; tells as which entry a given one stands there
//   book LENGTH LABEL: BOOK                       list_book, into so many bytes; tells a sum of the entries' own sums
//   holds LENGTH LABEL: BOOK / ENTRY              list_book; tells how often a given entry stands there
//   write LENGTH LABEL: PATTERN / FILLING         fill, into so many bytes; tells them
//   report LABEL: INPUT                           the text of the program `leftovers`
//   digest LABEL: INPUT                           the same; tells its length and a sum of its bytes
//   answer LABEL: TEXT                            the answer of the program `desk`
//   gauge LABEL: TEXT                             the same; tells its length and a sum of its bytes
//
// A line is printed up to its colon, and then the reply. An empty line and one that begins with a number sign are passed over.
use crate::slice_line::Call;
use crate::text_line::Detail;
use crate::{match_line, notation, say, slice_line, text_line};
use std::io;

// What the line of a case asks.
#[derive(Clone, Copy)]
enum Asked {
    Vocabulary,
    Term,
    Match,
    Part,
    Report(Detail),
    Answer(Detail),
    Slice(Call),
}

impl Asked {
    // Goes by the first byte of the line's first word. What is none of these asks for list.
    fn by(key: u8) -> Asked {
        match key {
            b'v' => Asked::Vocabulary,
            b't' => Asked::Term,
            b'm' => Asked::Match,
            b'p' => Asked::Part,
            b'r' => Asked::Report(Detail::Whole),
            b'd' => Asked::Report(Detail::Sum),
            b'a' => Asked::Answer(Detail::Whole),
            b'g' => Asked::Answer(Detail::Sum),
            b's' => Asked::Slice(Call::Sum),
            b'f' => Asked::Slice(Call::Find),
            b'b' => Asked::Slice(Call::Book),
            b'h' => Asked::Slice(Call::Holds),
            b'w' => Asked::Slice(Call::Write),
            _ => Asked::Slice(Call::List),
        }
    }
}

// What a line gives: its number, the bytes of the vocabulary that it stands under, and the bytes before its slash and
// behind it.
#[derive(Clone, Copy)]
pub(crate) struct Case<'a> {
    pub(crate) number: usize,
    pub(crate) vocabulary: &'a [u8],
    pub(crate) one: &'a [u8],
    pub(crate) other: &'a [u8],
}

// Runs the cases of a text. Those before the first vocabulary stand under what the first line has.
pub(crate) fn lines(rt: &impl Print, text: &[u8]) -> io::Result<()> {
    let (first, _) = notation::cut(text, b'\n');
    let (_, mut vocabulary) = notation::cut(first, b':');
    for line in text.split(|b| *b == b'\n') {
        let (label, inputs) = notation::cut(line, b':');
        match line.first() {
            None | Some(b'#') => {}
            Some(b'u') => {
                vocabulary = inputs;
                rt.write_all(label)?;
                println!(rt; "")?;
            }
            Some(key) => {
                rt.write_all(label)?;
                print!(rt; ": ")?;
                decoded(
                    rt,
                    Asked::by(*key),
                    notation::number(line, b' '),
                    vocabulary,
                    inputs,
                )?;
            }
        }
    }
    Ok(())
}

// Decodes the inputs. The longest book has a count and 64 patterns of 4,096 bytes.
fn decoded(
    rt: &impl Print,
    asked: Asked,
    number: usize,
    vocabulary: &[u8],
    inputs: &[u8],
) -> io::Result<()> {
    let mut for_vocabulary = [0u8; 4097];
    let mut for_one = [0u8; 262400];
    let mut for_other = [0u8; 8192];
    let (one, other) = notation::cut(inputs, b'/');
    let case = Case {
        number,
        vocabulary: notation::decode(vocabulary, &mut for_vocabulary),
        one: notation::decode(one, &mut for_one),
        other: notation::decode(other, &mut for_other),
    };
    call(rt, asked, case)
}

fn call(rt: &impl Print, asked: Asked, case: Case) -> io::Result<()> {
    match asked {
        Asked::Vocabulary => say::vocabulary(rt, case.one),
        Asked::Term => say::term(rt, case.vocabulary, case.one),
        Asked::Match => match_line::matched(rt, case),
        Asked::Part => say::bytes(
            rt,
            matcher::part(case.vocabulary, case.one, case.other, case.number),
        ),
        Asked::Report(detail) => text_line::printed(rt, detail, case.one),
        Asked::Answer(detail) => text_line::answered(rt, detail, case.one),
        Asked::Slice(asked) => slice_line::called(rt, asked, case),
    }
}
