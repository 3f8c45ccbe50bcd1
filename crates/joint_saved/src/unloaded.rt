//! Why bytes are no saved keyboard.

/// Why bytes are no saved keyboard that this version loads.
#[derive(Clone, Copy, Debug, PartialEq, Eq, Drop)]
pub enum Unloaded {
    /// There are not 3,077 of them.
    Length,
    /// They don't begin with KBD48SV.
    Format,
    /// They are of another version.
    Version,
    /// There are more words, edges or items than there can be.
    Counts,
    /// A key that waits for a step is at no place of the matrix.
    Keys,
    /// A number of the processor is too large.
    Processor,
    /// More bits of a frame have been than there can be.
    Link,
    /// More steps than cycles are done, or the output buffer is full and the keyboard isn't held off.
    State,
    /// There is no memory for INT 09h.
    Memory,
}
