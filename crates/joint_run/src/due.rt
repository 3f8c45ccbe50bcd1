//! What a step is handed, and what it answers.

ghost use Rattle.std.specs.Prelude.{◌≡◌};
ghost use Rattle.joint_run.specs.Due.{nothing_seen};

use arrayvec::ArrayVec;
use board_terms::{Edge, HostEvent, Lines};
use host_turn::Stamped;

/// The next events of a history, in their order: edges that aren't made yet, and the host's events that aren't done
/// yet. They may hold events that aren't due.
#[derive(Drop)]
pub struct Due {
    pub edges: ArrayVec<Edge, 4>,
    pub host: ArrayVec<HostEvent, 2>,
}

/// What a step did. `cycles` is 1 or 2; `edges` and `host` say how many of the handed events were made and done;
/// `items` is what was said, each with its cycle, in order; `lines` are the wires after the step's first and after its
/// last cycle.
#[derive(Drop)]
pub struct Seen {
    pub cycles: u8,
    pub edges: u8,
    pub host: u8,
    pub items: ArrayVec<Stamped, 16>,
    pub lines: [Lines; 2],
}

impl Seen {
    /// Nothing is done and said yet.
    pub fn nothing() -> Seen
        ensures nothing { result ≡ nothing_seen }
    {
        let high = Lines {
            clk: true,
            dat: true,
        };
        Seen {
            cycles: 0,
            edges: 0,
            host: 0,
            items: ArrayVec::new(),
            lines: [high, high],
        }
    }
}
