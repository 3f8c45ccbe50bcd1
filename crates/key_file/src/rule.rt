//! The rules of a key file.

/// A rule of a key file, with the stamps that are named if it is broken.
#[derive(Clone, Copy, Drop)]
pub(crate) enum Rule {
    /// A line has a stamp, a word, the number of arguments that a known word takes, and a byte if it takes one.
    Form,
    /// The word is known.
    UnknownWord,
    /// The layout has an entry with the key.
    UnknownKey,
    /// The stamp, which is the second, isn't less than that of the event before it, which is the first.
    Order(u64, u64),
    /// A key that goes down was up, and one that goes up was down.
    Held,
    /// A key keeps its state for 2,240 cycles; the stamps are those of its last edge and of this one.
    Dwell(u64, u64),
    /// Any five edges in a row take 2,240 cycles; the stamps are those of the first and of the fifth.
    Density(u64, u64),
    /// There is an `end`.
    NoEnd,
    /// No event follows `end`.
    AfterEnd,
    /// The stamp is at most 240,000,000.
    Late(u64),
    /// There are at most 65,536 events beside `end`.
    TooMany,
}
