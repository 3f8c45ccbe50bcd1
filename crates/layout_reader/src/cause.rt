//! The faults of a layout document, and their numbers.

ghost use Rattle.std.specs.Prelude.{◌≡◌, ◌<◌};
ghost use Rattle.layout_reader.specs.Faults.{number_of};

/// What is wrong with a document, or with one of its entries.
#[derive(Clone, Copy, PartialEq, Eq, Drop)]
pub(crate) enum Cause {
    NotToml,
    UnknownField,
    MissingField,
    WrongKind,
    WrongFormat,
    UnknownKey,
    PlaceOutOfRange,
    PlaceTaken,
    RateOutOfRange,
    NoEntries,
    KeyNamedBefore,
    FnNamedBefore,
    FnSends,
}

impl Cause {
    /// The number by which a message names the fault, from 1.
    pub(crate) fn number(self) -> u8
        ensures { result ≡ number_of self }
    {
        match self {
            Cause::NotToml => 1,
            Cause::UnknownField => 2,
            Cause::MissingField => 3,
            Cause::WrongKind => 4,
            Cause::WrongFormat => 5,
            Cause::UnknownKey => 6,
            Cause::PlaceOutOfRange => 7,
            Cause::PlaceTaken => 8,
            Cause::RateOutOfRange => 9,
            Cause::NoEntries => 10,
            Cause::KeyNamedBefore => 11,
            Cause::FnNamedBefore => 12,
            Cause::FnSends => 13,
        }
    }
}
