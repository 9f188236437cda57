// What the desk says of a kind that no complete situation has.
#![tactic(auto)]

ghost use Rattle.notes.specs.Notes.{EmptyTold, PutsNote};

use pages::Page;

// Whether no complete situation has kind s, under a vocabulary.
fn is_empty(vocabulary: &[u8], s: usize) -> bool
    ensures { EmptyTold vocabulary.now s result }
{
    if vocabulary.len() < 2 || 15 < s {
        return false;
    }
    let mut offsets = [0u16; 96];
    let mut results = [0u8; 96];
    let mut maps = [0u8; 96];
    let mut settled = [0u8; 96];
    match signature::load_settled(
        vocabulary,
        &mut offsets,
        &mut results,
        &mut maps,
        &mut settled,
    ) {
        Err(_) => false,
        Ok(missing) => takes::whole(s as u8, usize::from(vocabulary[1]), &settled, missing) == 0,
    }
}

// Puts what is said of kind s, under a vocabulary; nothing where a complete situation has it.
pub fn put_note(text: &[u8], kinds: &[u16], vocabulary: &[u8], s: usize, page: &mut Page)
    ensures { PutsNote text.now kinds.now vocabulary.now s page.old.bytes page.old.end page.new.bytes page.new.end }
{
    if is_empty(vocabulary, s) {
        page.put(b"# kind ");
        wording::put_name(text, kinds, s, page);
        page.put(b" has no complete situation\n\n");
    }
}
