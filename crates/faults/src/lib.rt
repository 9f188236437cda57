// What is wrong with a text in words, and where.
#![tactic(auto)]

ghost use Rattle.std.specs.Prelude.{◌≡◌};
ghost use Rattle.faults.specs.Reasons.{number_of};

// The reasons, in the order of their numbers.
#[derive(Clone, Copy, PartialEq, Eq)]
pub enum Reason {
    KindDue,
    KindNameDue,
    LongName,
    KindTwice,
    ManyKinds,
    WordDue,
    WordTwice,
    ManyWords,
    PlaceDue,
    NotDeclared,
    ManyPlaces,
    PlaceEnd,
    NoWords,
    PatternDue,
    TermDue,
    UnknownWord,
    OtherKind,
    PlacesWrong,
    TooDeep,
    TooLong,
    VariableTwice,
    ManyVariables,
    ColonDue,
    LongText,
    PlacesOver,
    SituationOpen,
    OtherLabel,
    KindBeyond,
}

impl Reason {
    // The number by which the messages go.
    pub fn number(self) -> usize
        ensures { result ≡ number_of self }
    {
        self as usize + 1
    }
}

// Why a text is refused, the offset at which that stands, and the kind or word that it is about.
#[derive(Clone, Copy)]
pub struct Fault {
    pub why: Reason,
    pub at: usize,
    pub of: usize,
}
