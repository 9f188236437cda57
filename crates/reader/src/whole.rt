// A term that is handed to a call: its size and kind, the term itself, and that nothing follows it.
ghost use Rattle.std.specs.Prelude.{◌≡◌, replicate};
ghost use Rattle.signature.specs.Tables.{vocabulary_in};
ghost use Rattle.reader.specs.Terms.{FrontRead};
ghost use Rattle.reader.specs.Whole.{told, whole_told, WholeRead};

use crate::refusal::TermRefusal;
use crate::term;
use crate::words::Words;
use cursors::Cursor;

// What reading a term tells of it: its words, its deepest level, whether it is complete and the offset of its first gap, its
// length where it has none, and whether a map in it is short.
#[derive(Clone, Copy)]
pub struct Extent {
    pub words: usize,
    pub deepest: usize,
    pub complete: bool,
    pub gap: usize,
    pub short: bool,
}

// Reads a kind and the term of that kind behind it, in at most 4,096 bytes. The table, blank before, tells at the end at which
// kind each name of the term stands. Bytes may follow the term.
pub(crate) fn read_front<'a>(
    w: Words<'a>,
    t: &[u8],
    names: &mut [u16; 64],
) -> Result<Cursor, TermRefusal>
    requires { names.old ≡ replicate 64 65535 }
    ensures { FrontRead w.entry.v.now t.now names.new result }
{
    if t.len() < 2 || 4096 < t.len() {
        return Err(TermRefusal::Size);
    }
    let kind = t[0];
    if w.v[0] <= kind {
        return Err(TermRefusal::NoSuchKind);
    }
    term::read_term(w, t, 1, kind, names)
}

// Reads a term under an accepted vocabulary. Where it is accepted the table, blank before, tells at which kind each of its
// names stands.
pub(crate) fn read_named<'a>(
    w: Words<'a>,
    t: &[u8],
    names: &mut [u16; 64],
) -> Result<Extent, TermRefusal>
    requires { names.old ≡ replicate 64 65535 }
    ensures { WholeRead (vocabulary_in w.entry.v.now) t.now names.new result }
{
    let c = read_front(w, t, names)?;
    let at = c.at;
    if at < t.len() {
        return Err(TermRefusal::Continues(at));
    }
    Ok(Extent {
        words: c.words,
        deepest: c.deepest,
        complete: c.complete(),
        gap: c.gap(),
        short: c.short(),
    })
}

// Reads a term under an accepted vocabulary.
pub(crate) fn read<'a>(w: Words<'a>, t: &[u8]) -> Result<Extent, TermRefusal>
    ensures { whole_told result ≡ told (vocabulary_in w.entry.v.now) t.now }
{
    let mut names = [65535u16; 64];
    read_named(w, t, &mut names)
}
