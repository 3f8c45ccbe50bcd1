//! What the controller does with its link.

/// What the controller does with its link to the keyboard. While a byte is under way, `F` is what is known of it.
#[derive(Clone, Copy, Debug, PartialEq, Eq, Drop)]
pub enum Link<F> {
    /// It waits for the keyboard.
    Free,
    /// It holds the keyboard off by pulling the clock, since this cycle.
    Hold(u64),
    /// It pulls the clock and has this byte for the keyboard, since this cycle.
    Ask(u8, u64),
    /// It has let the clock go, and requests the keyboard to take this byte.
    Request(u8),
    /// A byte is under way.
    Busy(F),
}
