//! What is outside the processor, and a cycle of it.

ghost use Rattle.std.specs.Prelude.{◌≡◌, ◌+◌, ◌-◌, ◌<◌, ◌≤◌, ◌^◌, [], ◌++◌, length, slice_get, true};
ghost use Rattle.ctl_link.specs.Empty.{IsEmptyUnlessHeld};
ghost use Rattle.ctl_wire.specs.Wire.{drive, edge_at, is_breakable};
ghost use Rattle.int09.specs.Bios.{start};
ghost use Rattle.host_turn.specs.Cycle.{cycled};
ghost use Rattle.host_turn.specs.Run.{lights_said, stamped};
ghost use Rattle.joint_run.specs.Due.{HasPassed, outside_at_start};
ghost use Rattle.joint_run.specs.Joint.{lights_of, latch_of};
ghost use Rattle.ctl_wire.specs.Wires.{joined};
ghost use Rattle.joint_run.specs.Cycle.{is_let_go, is_quiet, looked_outside, outside_cycle, outside_wires};

use arrayvec::ArrayVec;
use board_terms::{HIGH, HostEvent, Lines};
use ctl_link::{Link, LinkEnd};
use ctl_wire::{Wire, drive_of, fall};
use host_turn::{Desk, Stamped};
use int09::Bios;
use pc_tables::Item;

/// What is outside the processor.
#[derive(Drop)]
pub struct Outside {
    /// The controller with its wire state, the host's mask and INT 09h.
    pub desk: Desk<Wire>,
    /// The level of the clock at the controller's last look.
    pub clock: bool,
    /// The lights that the keyboard shows.
    pub shown: u8,
}

/// The lights that port 2 lights: Scroll as bit 0, Num as bit 1, Caps as bit 2, each if its latch bit is 0.
pub fn lights(p2: u8) -> u8
    ensures lights { result ≡ lights_of p2 }
{
    !p2 >> 4 & 7
}

/// What port 2 drives on the wires.
pub(crate) fn latch(p2: u8) -> Lines
    ensures { result ≡ latch_of p2 }
{
    Lines {
        clk: p2 >> 0 & 1 == 1,
        dat: p2 >> 1 & 1 == 1,
    }
}

/// The wires, with what the keyboard and the controller drive. It is out of line, since the link is free in most
/// cycles.
#[inline(never)]
fn pulled(keyboard: Lines, link: &Link<Wire>) -> Lines
    ensures { result ≡ joined keyboard (drive link.now) }
{
    let controller = drive_of(link);
    Lines {
        clk: keyboard.clk && controller.clk,
        dat: keyboard.dat && controller.dat,
    }
}

/// The host's next event, once so many of these are done.
fn next_of(host: &[HostEvent], done: u8) -> Option<HostEvent>
    ensures { result ≡ slice_get host.now done }
{
    host.get(done as usize).copied()
}

/// A state of the link of its own that is the same.
fn copied_link(link: &Link<Wire>) -> Link<Wire>
    ensures { result ≡ link.now }
{
    match link {
        Link::Free => Link::Free,
        Link::Hold(since) => Link::Hold(*since),
        Link::Ask(byte, since) => Link::Ask(*byte, *since),
        Link::Request(byte) => Link::Request(*byte),
        Link::Busy(wire) => Link::Busy(wire.copied()),
    }
}

/// A controller of its own, with its link in the same state.
fn copied_port(port: &LinkEnd<Wire>) -> LinkEnd<Wire>
    ensures { result ≡ port.now }
{
    LinkEnd {
        core: port.core.copied(),
        filled: port.filled,
        link: copied_link(&port.link),
        awaits: port.awaits,
        flip: port.flip,
    }
}

impl Outside {
    /// What is outside another processor in the same state, with this INT 09h.
    pub(crate) fn copied(&self, bios: Bios) -> Outside
        requires same { bios ≡ self.now.desk.bios }
        ensures same { result ≡ self.now }
    {
        Outside {
            desk: Desk {
                port: copied_port(&self.desk.port),
                masked: self.desk.masked,
                bios,
            },
            clock: self.clock,
            shown: self.shown,
        }
    }

    /// It is as at power-on again, with the memory that INT 09h has.
    pub(crate) fn switch_on(&mut self)
        ensures start { self.new ≡ outside_at_start }
        ensures empty { IsEmptyUnlessHeld self.new.desk.port }
    {
        self.desk.port = LinkEnd::new();
        self.desk.masked = false;
        self.desk.bios.clear();
        self.clock = true;
        self.shown = 0;
    }

    /// It is as another is, with the memory that INT 09h has.
    pub(crate) fn assign(&mut self, other: &Outside)
        ensures same { self.new ≡ other.now }
    {
        self.desk.port = copied_port(&other.desk.port);
        self.desk.masked = other.desk.masked;
        self.desk.bios.assign(&other.desk.bios);
        self.clock = other.clock;
        self.shown = other.shown;
    }

    /// What is outside the processor at power-on, with INT 09h at its start.
    pub(crate) fn new(bios: Bios) -> Outside
        requires { bios ≡ start }
        ensures start { result ≡ outside_at_start }
        ensures empty { IsEmptyUnlessHeld result.desk.port }
    {
        Outside {
            desk: Desk::new(bios),
            clock: true,
            shown: 0,
        }
    }

    /// The wires, with what the keyboard's port 2 drives.
    #[inline(always)]
    pub(crate) fn wires(&self, p2: u8) -> Lines
        ensures { result ≡ outside_wires p2 self.now }
    {
        match &self.desk.port.link {
            Link::Free => latch(p2),
            link => pulled(latch(p2), link),
        }
    }

    /// Whether nobody pulls a wire: port 2 lets both go, and the link is free.
    #[inline(always)]
    pub(crate) fn is_let_go(&self, p2: u8) -> bool
        ensures { result ≡ is_let_go p2 self.now }
    {
        let line = latch(p2);
        line.clk && line.dat && matches!(self.desk.port.link, Link::Free)
    }

    /// The lights that port 2 lights are shown; they are said if they changed.
    fn show(&mut self, now: u64, p2: u8, items: &mut ArrayVec<Stamped, 16>)
        requires room { length items.old.items < 16 }
        ensures shown { self.new ≡ record self.old { shown = lights_of p2 } }
        ensures said { items.new.items ≡ items.old.items ++ lights_said now self.old.shown (lights_of p2) }
        ensures few { length items.new.items ≤ length items.old.items + 1 }
    {
        let lights = lights(p2);
        if lights != self.shown {
            items.push(Stamped {
                cycle: now,
                item: Item::Lights(lights),
            });
            self.shown = lights;
        }
    }

    /// The clock falls, with data at this level.
    #[inline(never)]
    fn take_edge(&mut self, now: u64, dat: bool)
        requires empty { IsEmptyUnlessHeld self.old.desk.port }
        ensures port { self.new ≡ record self.old { desk = record self.old.desk { port = edge_at now dat self.old.desk.port.link self.old.desk.port } } }
        ensures empty { IsEmptyUnlessHeld self.new.desk.port }
    {
        fall(&mut self.desk.port, now, dat);
    }

    /// The controller looks at the wires.
    #[inline(always)]
    fn look(&mut self, now: u64, p2: u8)
        requires empty { IsEmptyUnlessHeld self.old.desk.port }
        ensures outside { self.new ≡ looked_outside now (outside_wires p2 self.old) self.old }
        ensures empty { IsEmptyUnlessHeld self.new.desk.port }
    {
        let line = self.wires(p2);
        if self.clock && !line.clk {
            self.take_edge(now, line.dat);
        }
        self.clock = line.clk;
    }

    /// The host acts and the controller settles, in a cycle in which something may happen. What is said is put after
    /// the items, with this cycle.
    #[inline(never)]
    fn go_on_busily(
        &mut self,
        now: u64,
        next: Option<HostEvent>,
        items: &mut ArrayVec<Stamped, 16>,
    ) -> bool
        requires room { length items.old.items ≤ 11 }
        ensures outside { self.new ≡ record self.old { desk = (cycled is_breakable now next self.old.desk).desk } }
        ensures items { items.new.items ≡ items.old.items ++ stamped now (cycled is_breakable now next self.old.desk).items }
        ensures done { result ≡ (cycled is_breakable now next self.old.desk).done }
        ensures few { length items.new.items ≤ length items.old.items + 5 }
        ensures empty { IsEmptyUnlessHeld self.old.desk.port → IsEmptyUnlessHeld self.new.desk.port }
    {
        let mut said = ArrayVec::new();
        let done = self.desk.go_on(now, next, &mut said);
        for item in said.iter() {
            items.push(Stamped {
                cycle: now,
                item: *item,
            });
        }
        done
    }

    /// The same in any cycle. In most nothing happens, and no list is made for what is said.
    #[inline(always)]
    fn go_on(
        &mut self,
        now: u64,
        next: Option<HostEvent>,
        items: &mut ArrayVec<Stamped, 16>,
    ) -> bool
        requires room { length items.old.items ≤ 11 }
        ensures outside { self.new ≡ record self.old { desk = (cycled is_breakable now next self.old.desk).desk } }
        ensures items { items.new.items ≡ items.old.items ++ stamped now (cycled is_breakable now next self.old.desk).items }
        ensures done { result ≡ (cycled is_breakable now next self.old.desk).done }
        ensures few { length items.new.items ≤ length items.old.items + 5 }
        ensures empty { IsEmptyUnlessHeld self.old.desk.port → IsEmptyUnlessHeld self.new.desk.port }
    {
        if self.desk.rests(now, next) {
            return false;
        }
        self.go_on_busily(now, next, items)
    }

    /// A cycle, in which port 2 is this: lights that changed are said; the controller looks at the wires; the host acts
    /// and the controller settles. Answers whether the host's next event was done.
    #[inline(always)]
    fn cycle(
        &mut self,
        now: u64,
        p2: u8,
        next: Option<HostEvent>,
        items: &mut ArrayVec<Stamped, 16>,
    ) -> bool
        requires empty { IsEmptyUnlessHeld self.old.desk.port }
        requires room { length items.old.items ≤ 10 }
        ensures outside { self.new ≡ (outside_cycle now p2 next self.old).outside }
        ensures items { items.new.items ≡ items.old.items ++ (outside_cycle now p2 next self.old).items }
        ensures done { result ≡ (outside_cycle now p2 next self.old).done }
        ensures few { length items.new.items ≤ length items.old.items + 6 }
        ensures empty { IsEmptyUnlessHeld self.new.desk.port }
    {
        self.show(now, p2, items);
        self.look(now, p2);
        self.go_on(now, next, items)
    }

    /// Whether in the cycles up to this one nothing happens for certain and nothing is said, as in most: with this
    /// latch of port 2 the lights stay as they are and the clock doesn't fall, and the host and the controller rest.
    #[inline(always)]
    fn is_quiet(&self, last: u64, p2: u8, host: &[HostEvent]) -> bool
        ensures { result ≡ is_quiet last p2 (slice_get host.now 0) self.now }
    {
        let rests = match host {
            [] => self.desk.rests(last, None),
            [event, ..] => self.desk.rests(last, Some(*event)),
        };
        rests && lights(p2) == self.shown && !(self.clock && !latch(p2).clk)
    }

    /// Whether they are such cycles, and port 2 lets both wires go.
    #[inline(always)]
    fn is_idle(&self, last: u64, p2: u8, host: &[HostEvent]) -> bool
        ensures quiet { result ≡ true → is_quiet last p2 (slice_get host.now 0) self.now ≡ true }
        ensures high { result ≡ true → latch_of p2 ≡ HIGH }
    {
        let line = latch(p2);
        let rests = match host {
            [] => self.desk.rests(last, None),
            [event, ..] => self.desk.rests(last, Some(*event)),
        };
        rests && lights(p2) == self.shown && line.clk && line.dat
    }

    /// The cycles of a step, 1 or 2, from this one on, in which port 2 is this and something may happen. Answers how
    /// many of the host's events were done, and the wires after the first and after the last cycle.
    #[inline(never)]
    fn pass_busily(
        &mut self,
        now: u64,
        cycles: u8,
        p2: u8,
        host: &[HostEvent],
        items: &mut ArrayVec<Stamped, 16>,
    ) -> (u8, Lines, Lines)
        requires near { now < 2 ^ 62 }
        requires some { 0 < cycles }
        requires few { cycles < 3 }
        requires empty { IsEmptyUnlessHeld self.old.desk.port }
        requires none { items.old.items ≡ [] }
        ensures passed { HasPassed cycles now p2 host.now self.old self.new items.new.items result }
        ensures empty { IsEmptyUnlessHeld self.new.desk.port }
    {
        let first_done = self.cycle(now, p2, next_of(host, 0), items) as u8;
        let first = self.wires(p2);
        if cycles == 1 {
            return (first_done, first, first);
        }
        let last_done = self.cycle(now + 1, p2, next_of(host, first_done), items) as u8;
        let last = self.wires(p2);
        (first_done + last_done, first, last)
    }

    /// The same in any cycles. If nothing happens the clock's level is noted, and no cycle is made.
    #[inline(never)]
    fn pass_in_frame(
        &mut self,
        now: u64,
        cycles: u8,
        p2: u8,
        host: &[HostEvent],
        items: &mut ArrayVec<Stamped, 16>,
    ) -> (u8, Lines, Lines)
        requires near { now < 2 ^ 62 }
        requires some { 0 < cycles }
        requires few { cycles < 3 }
        requires empty { IsEmptyUnlessHeld self.old.desk.port }
        requires none { items.old.items ≡ [] }
        ensures passed { HasPassed cycles now p2 host.now self.old self.new items.new.items result }
        ensures empty { IsEmptyUnlessHeld self.new.desk.port }
    {
        let last = now + cycles as u64 - 1;
        if self.is_quiet(last, p2, host) {
            let line = latch(p2);
            self.clock = line.clk;
            return (0, line, line);
        }
        let (done, first, last) = self.pass_busily(now, cycles, p2, host, items);
        (done, first, last)
    }

    /// The same in any cycles. In most nothing happens, and port 2 lets both wires go.
    #[inline(always)]
    pub(crate) fn pass(
        &mut self,
        now: u64,
        cycles: u8,
        p2: u8,
        host: &[HostEvent],
        items: &mut ArrayVec<Stamped, 16>,
    ) -> (u8, Lines, Lines)
        requires near { now < 2 ^ 62 }
        requires some { 0 < cycles }
        requires few { cycles < 3 }
        requires empty { IsEmptyUnlessHeld self.old.desk.port }
        requires none { items.old.items ≡ [] }
        ensures passed { HasPassed cycles now p2 host.now self.old self.new items.new.items result }
        ensures empty { IsEmptyUnlessHeld self.new.desk.port }
    {
        let last = now + cycles as u64 - 1;
        if self.is_idle(last, p2, host) {
            self.clock = true;
            return (0, HIGH, HIGH);
        }
        self.pass_in_frame(now, cycles, p2, host, items)
    }
}
