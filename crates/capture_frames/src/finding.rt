//! What is found on the wires.

/// A frame of eleven edges: who sent it, its byte, and whether start, parity and stop are right and, if the host sent it,
/// whether the keyboard acknowledged it.
#[derive(Clone, Copy, Debug, PartialEq, Eq, Drop)]
pub struct Whole {
    pub from_host: bool,
    pub byte: u8,
    pub start: bool,
    pub parity: bool,
    pub stop: bool,
    pub acknowledged: bool,
}

/// What is found on the wires.
#[derive(Clone, Copy, Debug, PartialEq, Eq, Drop)]
pub enum Finding {
    /// A frame of eleven edges.
    Byte(Whole),
    /// A frame, of the host or of the keyboard, after so many edges of which no other came in time.
    Few(bool, u8),
    /// A frame, of the host or of the keyboard, that the host broke off after so many edges.
    Cut(bool, u8),
    /// A frame, of the host or of the keyboard, after so many edges of which the capture has no other.
    Unfinished(bool, u8),
    /// An edge at which data is high, with no frame begun: it is no start bit.
    Stray,
    /// A pulse that is too short to be anything.
    Glitch,
    /// The host held the clock, and whether it asks the keyboard to take a byte.
    Hold(bool),
    /// The clock is low at the end of the capture: the host holds it, or it can't rise.
    StaysLow,
}

/// A finding, and the time in nanoseconds at which it begins.
#[derive(Clone, Copy, Debug, PartialEq, Eq, Drop)]
pub struct Timed {
    pub time: u64,
    pub finding: Finding,
}
