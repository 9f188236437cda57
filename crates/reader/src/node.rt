// What stands where a term is due.
ghost use Rattle.std.specs.Prelude.{◌≡◌, ◌+◌, ◌<◌, ◌≤◌, length, get_or};
ghost use Rattle.reader.specs.Names.{clashing};
ghost use Rattle.reader.specs.Nodes.{NodeAt, WordAt};

use crate::refusal::TermRefusal;

// A word with its written map, or a name.
#[derive(Clone, Copy)]
pub(crate) enum Node {
    Word(usize, u8),
    Name(usize),
}

// A word at the front of the rest of a term, which begins at an offset.
fn word_node(
    rest: &[u8],
    at: usize,
    word: usize,
    kind: u8,
    res: u8,
    map: u8,
) -> Result<Node, TermRefusal>
    requires { (at + length rest.now < 18446744073709551616) × (0 < length rest.now) × (get_or rest.now 0 0 ≡ word) }
    ensures { WordAt word res map kind at rest.now result }
{
    if res != kind {
        return Err(TermRefusal::WrongKind(at));
    }
    if rest.len() < maps::NODE {
        return Err(TermRefusal::Ends(at + 1));
    }
    let written = maps::read(rest, 1);
    if written & map != written {
        return Err(TermRefusal::StrayBit(at + 1));
    }
    Ok(Node::Word(word, written))
}

// What stands at the front of the rest of a term, where a term of a kind is due below so many words.
// Level 33 would begin below 32 of them.
pub(crate) fn node_at<'a>(
    rest: &[u8],
    at: usize,
    depth: usize,
    kind: u8,
    words: usize,
    results: &'a [u8; 96],
    maps: &'a [u8; 96],
) -> Result<Node, TermRefusal>
    requires { (at + length rest.now < 18446744073709551616) × (words ≤ 96) }
    ensures { NodeAt depth words results.now maps.now kind at rest.now result }
{
    if rest.len() == 0 {
        return Err(TermRefusal::Ends(at));
    }
    if 31 < depth {
        return Err(TermRefusal::TooDeep(at));
    }
    let b = rest[0] as usize;
    if b < words {
        return word_node(rest, at, b, kind, results[b], maps[b]);
    }
    // A name is a byte 128 to 191.
    if b / 64 != 2 {
        return Err(TermRefusal::NoWordOrName(at));
    }
    Ok(Node::Name(b - 128))
}

// Whether a name stood at another kind. One that has not stood yet has the entry 65535. Kept: a number and not an Option, as
// `first_difference` of `namemaps`, which is public, takes this table.
pub(crate) fn clashes(before: u16, kind: u8) -> bool
    ensures { result ≡ clashing before kind }
{
    before != 65535 && before != u16::from(kind)
}
