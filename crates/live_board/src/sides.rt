//! Which side pulls which wire.

ghost use Rattle.std.specs.Prelude.{◌≡◌};
ghost use Rattle.joint_run.specs.Joint.{latch_of};
ghost use Rattle.live_board.specs.Pasts.{Past};
ghost use Rattle.live_board.specs.Sides.{sides_in, sides_of};
ghost use Rattle.live_board.specs.States.{HasPast};

use crate::keyboard::Keyboard;
use board_terms::Lines;
use ctl_wire::drive_of;

/// What each side drives after the last cycle: `false` for a wire that it pulls, `true` for one that it lets go. A wire is
/// low if a side pulls it.
#[derive(Clone, Copy, Debug, PartialEq, Eq, Drop)]
pub struct Sides {
    pub keyboard: Lines,
    pub controller: Lines,
}

/// What port 2 of the keyboard's processor drives: the clock by its bit 0, data by its bit 1.
fn keyboard_side(p2: u8) -> Lines
    ensures { result ≡ latch_of p2 }
{
    Lines {
        clk: p2 >> 0 & 1 == 1,
        dat: p2 >> 1 & 1 == 1,
    }
}

impl Keyboard {
    /// What the keyboard and the controller drive on the two wires, both at this moment. No step is made.
    pub fn sides(&self) -> Sides
        ensures sides { result ≡ sides_of self.now.joint }
        ensures state { (p : Past) → (s : HasPast p self.now) → result ≡ sides_in s.world }
    {
        let joint = &self.parts.joint;
        Sides {
            keyboard: keyboard_side(joint.mcu().p2),
            controller: drive_of(&joint.outside().desk.port.link),
        }
    }
}
