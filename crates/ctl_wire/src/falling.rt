//! A falling edge of the clock.

ghost use Rattle.std.specs.Prelude.{◌≡◌};
ghost use Rattle.ctl_link.specs.Empty.{IsEmptyUnlessHeld};
ghost use Rattle.ctl_wire.specs.Wire.{edge_at, turned};

use crate::bits_taken::Bits;
use crate::edges::Edges;
use crate::wire::Wire;
use board_terms::{Frame, byte_of};
use ctl_link::{Link, LinkEnd};

/// The frame as it comes to the controller: noise turns round the bit with this number, if any.
fn turned(flip: Option<u8>, frame: Frame) -> Frame
    ensures { result.bits ≡ turned flip frame.bits }
{
    let mut bits = frame.bits;
    match flip {
        Some(bit) if bit < 11 => bits[usize::from(bit)] = !bits[usize::from(bit)],
        _ => {}
    }
    Frame { bits }
}

/// The clock falls in cycle `now`, with the data wire at this level. In a free link the keyboard's frame begins; in one
/// that requests, the frame for the keyboard. A frame under way counts the edge and takes the bit, and the eleventh
/// edge ends it: the byte is received, or handed over. While the controller pulls the clock, edges are ignored.
pub fn fall(port: &mut LinkEnd<Wire>, now: u64, dat: bool)
    requires empty { IsEmptyUnlessHeld port.old }
    ensures port { port.new ≡ edge_at now dat port.old.link port.old }
    ensures empty { IsEmptyUnlessHeld port.new }
{
    match &mut port.link {
        Link::Free => {
            let flip = port.take_flip();
            port.link = Link::Busy(Wire::Recv(flip, Bits::first(dat)));
        }
        Link::Hold(_) | Link::Ask(_, _) => {}
        Link::Request(byte) => {
            let byte = *byte;
            port.link = Link::Busy(Wire::Send(byte, Edges::first()));
        }
        Link::Busy(wire) => match wire {
            Wire::Recv(flip, bits) => {
                if bits.lack_one() {
                    let frame = turned(*flip, bits.ended_by(dat));
                    port.receive(now, byte_of(frame));
                } else {
                    bits.push(dat);
                }
            }
            Wire::Send(_, edges) => {
                if edges.lack_one() {
                    port.hand_over();
                } else {
                    *edges = edges.next();
                }
            }
        },
    }
}
