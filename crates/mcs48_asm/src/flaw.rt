//! What may be wrong with a line.

ghost use Rattle.std.specs.Prelude.{◌≡◌};
ghost use Rattle.mcs48_asm.specs.Flaws.{number_of};

/// What may be wrong with a line, in the order in which a line is judged.
#[derive(Clone, Copy, Drop)]
pub(crate) enum Flaw {
    /// A character or a word that no line may have, or a colon without exactly one name before it.
    Syntax,
    /// The statement is no instruction, ORG, DB or EQU.
    NoStatement,
    /// The operands fit no row, a value is too large, a reserved name is defined, or a label is before EQU.
    Misfit,
    /// No line defines a name.
    UnknownName,
    /// An earlier line defines a name.
    NameTaken,
    /// The target of a jump isn't in the page of its second byte.
    OffPage,
    /// A byte is past place 2,047.
    PastEnd,
    /// An earlier line has filled a place.
    PlaceTaken,
}

impl Flaw {
    /// The number by which a message names the flaw, 1 to 8.
    pub(crate) fn number(self) -> u8
        ensures { result ≡ number_of self }
    {
        match self {
            Flaw::Syntax => 1,
            Flaw::NoStatement => 2,
            Flaw::Misfit => 3,
            Flaw::UnknownName => 4,
            Flaw::NameTaken => 5,
            Flaw::OffPage => 6,
            Flaw::PastEnd => 7,
            Flaw::PlaceTaken => 8,
        }
    }
}
