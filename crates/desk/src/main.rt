// The program `desk`: takes a text of a vocabulary and patterns in words from standard input, or from the file that its argument
// names, and prints the leftovers of each pattern. What cannot be opened, read or written is told in a line on the error output.
#![tactic(auto)]

ghost use Rattle.std.specs.Prelude.{◌≤◌, length};

use pages::Page;
use std::env::{Env, FillError};
use std::fs;
use std::fs::Files;
use std::io::Read;

// Tells in a line what went wrong. Where that cannot be written either, nothing is left to be done.
fn complain(rt: &impl Eprint, what: &str) {
    let _ = eprintln!(rt; "desk: {what}");
}

// Prints the answer for the text that comes. A byte more than a text may have is taken, so that a longer one is told.
fn answer_from(rt: &(impl Print + Eprint + Files), input: &mut impl Read) {
    let mut bytes = [0u8; 65536];
    let Ok(n) = intake::take(input, &mut bytes) else {
        complain(rt, "the text could not be read");
        return;
    };
    let mut page = Page::new();
    deliver_answer(rt, &bytes[..n], &mut page);
}

// Puts the answer for a text on a page and prints it. The page is lent, so that a proof has not a million zeros before it.
fn deliver_answer(rt: &(impl Print + Eprint + Files), text: &[u8], page: &mut Page) {
    answers::answer(text, page);
    if !outlet::deliver(rt, text_on(page)) {
        complain(rt, "the answer could not be written whole");
    }
}

fn text_on(page: &Page) -> &[u8]
    requires { page.now.end ≤ length page.now.bytes }
{
    &page.bytes[..page.end]
}

// Prints the answer for the file at a path.
fn answer_file(rt: &(impl Print + Eprint + Files), path: &[u8]) {
    match open(rt, path) {
        Some(mut file) => answer_from(rt, &mut file),
        None => complain(rt, "the file could not be opened"),
    }
}

// The file at a path, which must be text.
fn open<R: Files>(files: &R, path: &[u8]) -> Option<R::File> {
    fs::open(files, str::from_utf8(path).ok()?).ok()
}

fn main(rt: HostRuntime) {
    let mut path = [0u8; 4096];
    match rt.arg(2, &mut path) {
        Err(FillError::NotPresent) => {}
        Ok(_) | Err(FillError::TooLong) => {
            complain(&rt, "one file at a time");
            return;
        }
    }
    match rt.arg(1, &mut path) {
        Ok(n) => answer_file(&rt, &path[..n]),
        Err(FillError::TooLong) => complain(&rt, "the file could not be opened"),
        Err(FillError::NotPresent) => answer_from(&rt, &mut rt.stdin()),
    }
}
