//! A byte that passed over the two wires.

/// A byte that passed over the wires, and whether the controller sent it, and not the keyboard.
#[derive(Clone, Copy, Debug, PartialEq, Eq)]
pub struct Transfer {
    /// Whether the controller sent it, and not the keyboard.
    pub from_host: bool,
    /// The byte. The keyboard's is that of bits 1 to 8 of its frame, as they were on the wires before any noise.
    pub byte: u8,
}
