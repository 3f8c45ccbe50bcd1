//! Where in a dump a token is.

use crate::unit::Count;

/// The level that a value says.
#[derive(Clone, Copy, Drop)]
pub(crate) enum Level {
    Low,
    High,
    /// Neither 0 nor 1.
    Unknown,
}

/// Where in a dump the next token is.
#[derive(Clone, Copy, Drop)]
pub(crate) enum Part {
    /// In the header, and in none of its sections.
    Outside,
    /// In a section of the header of which nothing more is read.
    Section,
    /// In the section of the unit of time, before its count.
    Timescale,
    /// After the count, before its measure.
    Measure(Count),
    /// In the section of a signal, before its type.
    Kind,
    /// Before its width.
    Width,
    /// Before its code; whether it has one bit.
    Code(bool),
    /// Before its name; whether it has one bit, and its code as a number, if it has one.
    Name(bool, Option<u64>),
    /// After the header's last section began.
    Definitions,
    /// After the header.
    Body,
    /// In a comment after the header.
    Comment,
    /// After a value that is a token of its own, before the code of its signal.
    Vector(Level),
    /// After the end.
    Over,
}
