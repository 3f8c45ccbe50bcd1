//! The interrupt line, and when it rises.

ghost use Rattle.std.specs.Prelude.{◌≡◌};
ghost use Rattle.live_board.specs.Rising.{rose};

/// Whether the interrupt line is up, and the cycle in which the output buffer was last filled.
#[derive(Clone, Copy, Debug, PartialEq, Eq)]
pub struct Irq {
    pub up: bool,
    pub filled: u64,
}

impl Irq {
    /// Whether the line rose in a step, before which it was as here: it is up after it, and was down before it, or in it,
    /// since the output buffer, which was full, was read and filled again.
    pub(crate) fn rises_to(self, is: Irq) -> bool
        ensures { result ≡ rose self is }
    {
        is.up && (!self.up || self.filled != is.filled)
    }
}
