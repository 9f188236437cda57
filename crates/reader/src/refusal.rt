// Why a term is refused, with the place where it is not fixed: document 01, lines 7 to 15.
#[derive(Clone, Copy)]
pub enum TermRefusal {
    Size,
    NoSuchKind,
    Ends(usize),
    TooDeep(usize),
    NoWordOrName(usize),
    WrongKind(usize),
    Clashes(usize),
    StrayBit(usize),
    Continues(usize),
}
