//! What is on the PC's side, and one cycle of it.

ghost use Rattle.std.specs.Prelude.{◌≡◌, ◌+◌, ◌<◌, ◌≤◌, false, IsTrue, not, ◌&&◌, [], ◌++◌, length};
ghost use Rattle.ctl_link.specs.Empty.{IsEmptyUnlessHeld};
ghost use Rattle.ctl_link.specs.Pulls.{BeginsPull, KeepsPull};
ghost use Rattle.host_turn.specs.Cycle.{cycled, desk_at_start, said_of};
ghost use Rattle.host_turn.specs.Rest.{is_at_rest, is_due};

use crate::events::is_due;
use arrayvec::ArrayVec;
use board_terms::HostEvent;
use ctl_core::Did;
use ctl_link::{Link, LinkEnd, Passing};
use int09::Bios;
use pc_tables::Item;

/// The controller with its end of the link, whether the host has masked the keyboard's interrupt, and INT 09h.
#[derive(Drop)]
pub struct Desk<F> {
    /// The controller with its link.
    pub port: LinkEnd<F>,
    /// Whether the host has masked the interrupt.
    pub masked: bool,
    /// INT 09h and its buffer.
    pub bios: Bios,
}

impl<F: Drop> Desk<F> {
    /// The PC's side at its start, with this INT 09h: the controller at its start, and nothing masked.
    pub fn new(bios: Bios) -> Desk<F>
        ensures start { result ≡ desk_at_start F bios }
        ensures empty { IsEmptyUnlessHeld result.port }
    {
        Desk {
            port: LinkEnd::new(),
            masked: false,
            bios,
        }
    }
}

impl<F: Passing + Drop> Desk<F> {
    /// Cycle `now`, once what came over the link in it has been done: the host's next event, if any, if it is due;
    /// then the read of INT 09h, if the interrupt comes through; then a waiting input breaks off a byte under way,
    /// if it may; then the controller settles. Answers whether the event was done. What was said, at most five
    /// items, is put after `items`, in order.
    pub fn go_on(
        &mut self,
        now: u64,
        next: Option<HostEvent>,
        items: &mut ArrayVec<Item, 16>,
    ) -> bool
        requires room { length items.old.items ≤ 11 }
        ensures desk { self.new ≡ (cycled F.breaks now next self.old).desk }
        ensures items { items.new.items ≡ items.old.items ++ (cycled F.breaks now next self.old).items }
        ensures done { result ≡ (cycled F.breaks now next self.old).done }
        ensures few { length items.new.items ≤ length items.old.items + 5 }
        ensures empty { IsEmptyUnlessHeld self.old.port → IsEmptyUnlessHeld self.new.port }
        ensures pull_kept { KeepsPull now self.old.port.link self.new.port.link }
        ensures pull_begins { BeginsPull now self.old.port.link self.new.port.link }
    {
        if self.rests(now, next) {
            return false;
        }
        let done = self.do_event(now, next, items);
        self.interrupt(now, items);
        self.port.break_off(now);
        let did = self.port.settle(now);
        say_did(did, items);
        done
    }

    /// Whether cycle `now` changes nothing and says nothing for certain, which is so in most cycles: the link is free,
    /// both buffers are empty, the keyboard isn't disabled, and the host's next event, if any, isn't due.
    #[inline(always)]
    pub fn rests(&self, now: u64, next: Option<HostEvent>) -> bool
        ensures rests { result ≡ (is_at_rest self.now && not (is_due now next)) }
        ensures quiet { IsTrue result → cycled F.breaks now next self.now ≡ record { desk = self.now; items = []; done = false } }
    {
        matches!(self.port.link, Link::Free) && self.port.core.is_idle() && !is_due(now, next)
    }
}

/// What is said of the input that was taken.
fn say_did(did: Did, items: &mut ArrayVec<Item, 16>)
    requires room { length items.old.items < 16 }
    ensures items { items.new.items ≡ items.old.items ++ said_of did }
    ensures few { length items.new.items ≤ length items.old.items + 1 }
{
    match did {
        Did::Output(byte) => items.push(Item::Output(byte)),
        Did::Pulse(lines) => items.push(Item::Pulse(lines)),
        Did::Nothing | Did::ToKeyboard(_) => {}
    }
}
