// The patterns of a book, taken in turn: what is left behind one of them goes from one area into the other.
ghost use Rattle.std.specs.Prelude.{◌≤◌, length, take};
ghost use Rattle.wire.specs.Effect.{HasEffect};
ghost use Rattle.wire.specs.ListComputed.{listed_into};
ghost use Rattle.books.specs.Turning.{turn_numbers, TurnAt, Turns, ReadAt, AreasFor, ListsIn};

use others::Full;
use sizes::Size;
use strikes::Left;

// How many bytes have no room in the lent slice; or the number of the pattern behind which the entries have none in an area, or
// one of them is too long.
#[derive(Clone, Copy)]
pub(crate) enum TurnRefusal {
    NoRoom(usize),
    Past(usize),
}

// What a listing reads of the vocabulary: the siblings and the settled result kinds of its words, how many words it has, and its
// lowest kind without complete situations.
#[derive(Clone, Copy)]
pub(crate) struct Tables<'a> {
    pub(crate) siblings: &'a [u8; 384],
    pub(crate) settled: &'a [u8; 96],
    pub(crate) words: usize,
    pub(crate) missing: Option<usize>,
}

// Writes the entries that are left in an area.
fn finish(area: &[u8], left: Left, out: &mut [u8]) -> Result<Size, TurnRefusal>
    requires { left.bytes ≤ length area.now }
    ensures { HasEffect (listed_into out.old left.entries (take left.bytes area.now)) (turn_numbers result) out.new }
{
    if out.len() < left.bytes {
        return Err(TurnRefusal::NoRoom(left.bytes));
    }
    slices::copy(&area[..left.bytes], out);
    Ok(Size {
        entries: left.entries,
        bytes: left.bytes,
    })
}

// Takes the patterns of the rest of a book, of which the first has the number i, against the entries that are left in an area.
// The areas change places for the next pattern.
// Kept: since they change places, a struct of the two would be taken apart and built again at each pattern, no plainer than two slices.
fn turn(
    book: &[u8],
    i: usize,
    from: &mut [u8],
    left: Left,
    to: &mut [u8],
    copy: &mut [u8],
    marks: &mut [u32],
    tables: Tables<'_>,
    out: &mut [u8],
) -> Result<Size, TurnRefusal>
    requires { TurnAt book.now i from.old left.bytes left.entries (length to.old) (length copy.old) (length marks.old) tables.siblings.now tables.settled.now tables.words tables.missing }
    ensures { Turns book.now i from.old left.bytes left.entries (length to.old) (length copy.old) (length marks.old) tables.entry.siblings.now tables.entry.settled.now tables.entry.words tables.entry.missing out.old out.new result }
{
    if book.len() == 0 {
        return finish(from, left, out);
    }
    let size = 1 + extents::term_size(&book[1..]);
    match takes::take_pattern(
        &from[..left.bytes],
        left.entries,
        &book[..size],
        marks,
        copy,
        tables.siblings,
        tables.settled,
        tables.words,
        tables.missing,
        to,
    ) {
        Err(Full) => Err(TurnRefusal::Past(i)),
        Ok(behind) => turn(
            &book[size..],
            i + 1,
            to,
            behind,
            from,
            copy,
            marks,
            tables,
            out,
        ),
    }
}

// Lists a book by two areas, a copy and a table of marks. The entry 255 is there at first, if the kind has a situation.
pub(crate) fn list_in(
    book: &[u8],
    tables: Tables<'_>,
    near: &mut [u8],
    far: &mut [u8],
    copy: &mut [u8],
    marks: &mut [u32],
    out: &mut [u8],
) -> Result<Size, TurnRefusal>
    requires read_at { ReadAt book.now tables.siblings.now tables.settled.now tables.words tables.missing }
    requires areas_for { AreasFor book.now (length near.old) (length far.old) (length copy.old) (length marks.old) }
    ensures { ListsIn book.now tables.entry.siblings.now tables.entry.settled.now tables.entry.words tables.entry.missing (length near.old) out.old out.new result }
{
    let kind = book[1];
    let entries = takes::whole(kind, tables.words, tables.settled, tables.missing);
    near[0] = kind;
    near[1] = 255;
    let whole = Left {
        bytes: 2 * entries,
        entries,
    };
    turn(&book[1..], 0, near, whole, far, copy, marks, tables, out)
}
