// Document 01's program `leftovers`: takes the first 65,536 bytes of standard input, and prints the text for them.
// An input that cannot be read, or a text that cannot be written whole, is told in a line on the error output.
#![tactic(auto)]

// Tells in a line what went wrong. Where that cannot be written either, nothing is left to be done.
fn complain(rt: &impl Eprint, what: &str) {
    let _ = eprintln!(rt; "leftovers: {what}");
}

fn main(rt: HostRuntime) {
    let mut bytes = [0u8; 65536];
    let Ok(n) = intake::take(&mut rt.stdin(), &mut bytes) else {
        complain(&rt, "the input could not be read");
        return;
    };
    let mut text = [0u8; 524288];
    let k = report::print(&bytes[..n], &mut text);
    if !outlet::deliver(&rt, &text[..k]) {
        complain(&rt, "the output could not be written whole");
    }
}
