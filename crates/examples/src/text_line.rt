// The text of the program `leftovers` or `desk` for an input, on one case.
use crate::sums;
use pages::Page;
use std::io;

// Whether a line asks for the whole text, or for its length and a sum of its bytes.
#[derive(Clone, Copy)]
pub(crate) enum Detail {
    Whole,
    Sum,
}

// Tells a text.
fn told(rt: &impl Print, detail: Detail, text: &[u8]) -> io::Result<()> {
    match detail {
        Detail::Whole => rt.write_all(text),
        Detail::Sum => {
            let length = text.len();
            let sum = sums::sum(text);
            println!(rt; "{length} bytes, sum {sum}")
        }
    }
}

// Asks for the text of `leftovers` for an input. It has at most 524,288 bytes.
pub(crate) fn printed(rt: &impl Print, detail: Detail, input: &[u8]) -> io::Result<()> {
    let mut text = [0u8; 524288];
    let n = report::print(input, &mut text);
    told(rt, detail, text.get(..n).unwrap_or(&[]))
}

// Asks for the answer of `desk` for a text. It has at most 1,048,576 bytes.
pub(crate) fn answered(rt: &impl Print, detail: Detail, text: &[u8]) -> io::Result<()> {
    let mut page = Page::new();
    answers::answer(text, &mut page);
    told(rt, detail, page.bytes.get(..page.end).unwrap_or(&[]))
}
