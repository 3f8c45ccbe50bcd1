//! What the controller drives.

ghost use Rattle.std.specs.Prelude.{◌≡◌};
ghost use Rattle.ctl_wire.specs.Wire.{drive, drive_in};

use crate::wire::Wire;
use board_terms::{Lines, frame_of};
use ctl_link::Link;

/// Both wires let go.
const RELEASED: Lines = Lines {
    clk: true,
    dat: true,
};

/// The clock pulled.
const CLOCK_PULLED: Lines = Lines {
    clk: false,
    dat: true,
};

/// The data wire pulled.
const DATA_PULLED: Lines = Lines {
    clk: true,
    dat: false,
};

/// What the controller drives, by its link: it pulls the clock while it holds the keyboard off or has a byte for it; a
/// request pulls data, which is the start bit; and after each falling edge of its frame the next bit is on data.
pub fn drive_of(link: &Link<Wire>) -> Lines
    ensures driven { result ≡ drive link.now }
{
    match link {
        Link::Free => RELEASED,
        Link::Hold(_) | Link::Ask(_, _) => CLOCK_PULLED,
        Link::Request(_) => DATA_PULLED,
        Link::Busy(wire) => drive_in(wire),
    }
}

/// What it drives while a byte is under way.
fn drive_in(wire: &Wire) -> Lines
    ensures { result ≡ drive_in wire.now }
{
    match wire {
        Wire::Recv(_, _) => RELEASED,
        Wire::Send(byte, edges) => Lines {
            clk: true,
            dat: frame_of(*byte).bits[edges.number()],
        },
    }
}
