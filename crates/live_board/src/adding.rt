//! What a call adds at once: an event of the host, or an edge of a key.

ghost use Rattle.std.specs.Prelude.{◌≡◌, ◌-◌, ◌∷◌, [], OnOk};
ghost use Rattle.host_turn.specs.Host.{waits};
ghost use Rattle.live_board.specs.Acts.{IsAnswered};
ghost use Rattle.live_board.specs.Calls.{IsActed, IsKeyed, Says};
ghost use Rattle.live_board.specs.Heard.{IsKeptLog};
ghost use Rattle.live_board.specs.Onward.{IsStepped, with_edge};
ghost use Rattle.live_board.specs.Pasts.{Past, acted};
ghost use Rattle.live_board.specs.States.{HasPast};

use crate::parts::{LAST_CYCLE, Parts};
use crate::refused::Refused;
use arrayvec::ArrayVec;
use board_terms::{Edge, HostAct, HostEvent, Place, STAMP_0};

/// How many edges can wait for a step.
const EDGES: usize = 4;

/// One event of the host as a list.
fn one_event(event: HostEvent) -> ArrayVec<HostEvent, 2>
    ensures { result.items ≡ event ∷ [] }
{
    let mut list = ArrayVec::new();
    list.push(event);
    list
}

impl Parts {
    /// Whether what the host does has to wait: a write, while the controller's input buffer is full.
    fn waits(&self, act: HostAct) -> bool
        ensures { result ≡ waits act self.now.joint.outside.desk.port.core }
    {
        match act {
            HostAct::Write60(_) | HostAct::Write64(_) => self.joint.controller().input_full(),
            _ => false,
        }
    }

    /// The host acts in one joint step, which begins now.
    pub(crate) fn act(&mut self, act: HostAct) -> Result<(), Refused>
        ensures acted { IsActed act self.old result self.new }
        ensures said { OnOk result ((p : Past) → HasPast p self.old
            → Says p (acted p (self.old.joint.cycle - 4096) act) self.new.seen.items.items) }
        ensures answered { OnOk result (IsAnswered act self.new.seen.items.items) }
        ensures log_kept { IsKeptLog act self.old result self.new }
        ensures stepped { IsStepped act self.old result self.new }
    {
        let cycle = self.joint.cycle();
        if cycle < STAMP_0 {
            return Err(Refused::Early);
        }
        if cycle >= LAST_CYCLE {
            return Err(Refused::LastCycle);
        }
        if self.waits(act) {
            return Err(Refused::Full);
        }
        let stamp = cycle - STAMP_0;
        self.due.host = one_event(HostEvent { stamp, act });
        match self.step() {
            Ok(()) => {
                self.due.host = ArrayVec::new();
                Ok(())
            }
            Err(stuck) => {
                self.due.host = ArrayVec::new();
                Err(Refused::Stuck(stuck))
            }
        }
    }

    /// The key at a place goes down or up. It is made before the next step; no step is made yet.
    pub(crate) fn key(&mut self, place: Place, down: bool) -> Result<(), Refused>
        ensures keyed { IsKeyed place down self.old result self.new }
        ensures log_unchanged { (self.new.heard ≡ self.old.heard) × (self.new.rises ≡ self.old.rises) }
        ensures joint { self.new.joint ≡ self.old.joint }
        ensures waits { OnOk result (self.new ≡ with_edge place down self.old) }
    {
        let cycle = self.joint.cycle();
        if cycle < STAMP_0 {
            return Err(Refused::Early);
        }
        if self.due.edges.len() >= EDGES {
            return Err(Refused::Full);
        }
        let stamp = cycle - STAMP_0;
        self.due.edges.push(Edge { stamp, place, down });
        Ok(())
    }
}
