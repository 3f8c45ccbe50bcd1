//! The read of INT 09h.

ghost use Rattle.std.specs.Prelude.{◌≡◌, ◌+◌, ◌≤◌, ◌++◌, length};
ghost use Rattle.host_turn.specs.Cycle.{host_of, with_host};
ghost use Rattle.host_turn.specs.Host.{bios_turn, interrupts};

use crate::desk::Desk;
use arrayvec::ArrayVec;
use pc_tables::Item;

/// How many cycles after the filling of the output buffer its byte is read at the earliest. Source: our own.
const LEAST_WAIT: u64 = 64;

impl<F: Drop> Desk<F> {
    /// INT 09h reads the byte of the output buffer, if the interrupt comes through in cycle `now`. It says `port`
    /// with the byte, and what INT 09h says of it.
    pub(crate) fn interrupt(&mut self, now: u64, items: &mut ArrayVec<Item, 16>)
        requires room { length items.old.items ≤ 12 }
        ensures desk { self.new ≡ with_host (bios_turn now self.old.port.filled (host_of self.old)).host self.old }
        ensures items { items.new.items ≡ items.old.items ++ (bios_turn now self.old.port.filled (host_of self.old)).items }
        ensures few { length items.new.items ≤ length items.old.items + 3 }
    {
        if !self.interrupts(now) {
            return;
        }
        let byte = self.port.core.host_read60();
        items.push(Item::Port(byte));
        let said = self.bios.feed(byte);
        for item in said.iter() {
            items.push(*item);
        }
    }

    /// Whether the interrupt comes through now: the output buffer is full since 64 cycles at least, the command byte
    /// lets the interrupt through, and the host hasn't masked it.
    fn interrupts(&self, now: u64) -> bool
        ensures { result ≡ interrupts now self.now.port.filled (host_of self.now) }
    {
        self.port.core.output_full()
            && self.port.core.interrupt_enabled()
            && !self.masked
            && now >= LEAST_WAIT
            && self.port.filled <= now - LEAST_WAIT
    }
}
