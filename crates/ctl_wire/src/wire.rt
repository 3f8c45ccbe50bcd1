//! A byte under way on the wires.

ghost use Rattle.std.specs.Prelude.{◌≡◌};
ghost use Rattle.ctl_wire.specs.Wire.{is_breakable};

use crate::bits_taken::Bits;
use crate::edges::Edges;
use ctl_link::Passing;

/// A byte under way on the wires.
#[derive(Drop)]
pub enum Wire {
    /// The keyboard sends a byte: the bit that noise turns round in its frame, if any, and the bits that have come so
    /// far, in order, as they were on the wires.
    Recv(Option<u8>, Bits),
    /// The controller sends this byte, and so many falling edges have been.
    Send(u8, Edges),
}

impl Wire {
    /// A byte of its own that is under way in the same way.
    pub fn copied(&self) -> Wire
        ensures same { result ≡ self.now }
    {
        match self {
            Wire::Recv(flip, bits) => Wire::Recv(*flip, bits.copied()),
            Wire::Send(byte, edges) => Wire::Send(*byte, *edges),
        }
    }
}

impl Passing for Wire {
    ghost use Rattle.ctl_wire.specs.Wire.{is_breakable};

    ghost breaks = { is_breakable };

    /// A byte of the keyboard may be broken off before its tenth falling edge.
    fn may_break(&self) -> bool {
        match self {
            Wire::Recv(_, bits) => !bits.lack_one(),
            Wire::Send(_, _) => false,
        }
    }
}
