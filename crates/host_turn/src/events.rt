//! The host's events.

ghost use Rattle.std.specs.Prelude.{◌≡◌, ◌+◌, ◌≤◌, ◌++◌, not, length, nat_le};
ghost use Rattle.host_turn.specs.Cycle.{host_of, with_host};
ghost use Rattle.host_turn.specs.Host.{acted_where, event_turn, is_done, waits};
ghost use Rattle.host_turn.specs.Rest.{is_due as is_due_at};

use crate::desk::Desk;
use arrayvec::ArrayVec;
use board_terms::{HostAct, HostEvent, STAMP_0};
use ctl_core::Port as HostPort;
use pc_tables::Item;

/// Whether there is a next event and its stamp is reached in cycle `now`.
pub(crate) fn is_due(now: u64, next: Option<HostEvent>) -> bool
    ensures { result ≡ is_due_at now next }
{
    match next {
        None => false,
        Some(event) => now >= STAMP_0 && event.stamp <= now - STAMP_0,
    }
}

impl<F: Drop> Desk<F> {
    /// The host's next event, if any, if it is due in cycle `now`. A write waits while the input buffer is full.
    /// Answers whether it was done.
    pub(crate) fn do_event(
        &mut self,
        now: u64,
        next: Option<HostEvent>,
        items: &mut ArrayVec<Item, 16>,
    ) -> bool
        requires room { length items.old.items ≤ 11 }
        ensures desk { self.new ≡ with_host (event_turn now next (host_of self.old)).host self.old }
        ensures items { items.new.items ≡ items.old.items ++ (event_turn now next (host_of self.old)).items }
        ensures done { result ≡ is_done now next self.old.port.core }
        ensures few { length items.new.items ≤ length items.old.items + 1 }
    {
        match next {
            Some(event) if is_due(now, next) => self.act(event.act, items),
            _ => false,
        }
    }

    /// An event that is due.
    fn act(&mut self, act: HostAct, items: &mut ArrayVec<Item, 16>) -> bool
        requires room { length items.old.items ≤ 11 }
        ensures desk { self.new ≡ with_host (acted_where (not (waits act self.old.port.core)) act (host_of self.old)).host self.old }
        ensures items { items.new.items ≡ items.old.items ++ (acted_where (not (waits act self.old.port.core)) act (host_of self.old)).items }
        ensures done { result ≡ not (waits act self.old.port.core) }
        ensures few { length items.new.items ≤ length items.old.items + 1 }
    {
        match act {
            HostAct::Write60(byte) => return self.port.core.host_write(HostPort::P60, byte).is_ok(),
            HostAct::Write64(byte) => return self.port.core.host_write(HostPort::P64, byte).is_ok(),
            HostAct::Read60 => {
                let byte = self.port.core.host_read60();
                items.push(Item::Read(byte));
            }
            HostAct::Mask => self.masked = true,
            HostAct::Unmask => self.masked = false,
            HostAct::Take => {
                let word = self.bios.take();
                items.push(Item::Taken(word));
            }
            HostAct::Status => {
                let status = self.port.core.status();
                items.push(Item::Status(status));
            }
            HostAct::Flip(bit) => self.port.flip = Some(bit),
        }
        true
    }
}
