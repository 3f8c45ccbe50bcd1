//! The bytes that pass over the two wires.

ghost use Rattle.std.specs.Prelude.{◌≡◌, ◌<◌, ◌≤◌, ◌^◌, length};
ghost use Rattle.board_terms.specs.Bits.{value as value_of};
ghost use Rattle.live_board.specs.Passing.{at_fall, ended_by};

use crate::parts::Parts;
use board_terms::Transfer;
use ctl_link::Link;
use ctl_wire::Wire;

/// The number that at most eight bits are, the lowest first.
fn value(bits: &[bool]) -> u8
    requires { length bits.now ≤ 8 }
    ensures value { result ≡ value_of bits.now }
    ensures range { result < 2 ^ length bits.now }
{
    match bits {
        [] => 0,
        [bit, rest @ ..] => 2 * value(rest) + *bit as u8,
    }
}

/// The byte that a falling edge of the clock ends, if it is the eleventh of its frame.
fn ended_by(wire: &Wire) -> Option<Transfer>
    ensures { result ≡ ended_by wire.now }
{
    match wire {
        Wire::Recv(_, bits) => {
            if !bits.lack_one() {
                return None;
            }
            let frame = bits.ended_by(true);
            Some(Transfer {
                from_host: false,
                byte: value(&frame.bits[1..9]),
            })
        }
        Wire::Send(byte, edges) => {
            if edges.lack_one() {
                Some(Transfer {
                    from_host: true,
                    byte: *byte,
                })
            } else {
                None
            }
        }
    }
}

impl Parts {
    /// The byte that ends if the clock falls in the next step. In most steps none is under way.
    #[inline(always)]
    pub(crate) fn at_fall(&self) -> Option<Transfer>
        ensures { result ≡ at_fall self.now.joint.outside }
    {
        let outside = self.joint.outside();
        match &outside.desk.port.link {
            Link::Busy(wire) if outside.clock => ended_by(wire),
            _ => None,
        }
    }
}
