//! Small programs on the board, worked out by hand, as tables: what happens, and what is so then.

use arrayvec::ArrayVec;
use board_terms::{Edge, HIGH, HostAct, HostEvent, Lines, Place};
use int09::Bios;
use joint_glide::{NOWHERE, go_on};
use joint_run::{Due, Joint, Seen, Stamped};
use mcs48_core::Stuck;
use mcs48_isa::Image;
use pc_tables::Item;
use std::alloc::Global;
use std::process::Abort;
use std::test::Fail;

/// A program that begins with these bytes; all others are 00, a NOP of one cycle.
pub fn program(bytes: &[u8]) -> Image {
    let mut image = Image { bytes: [0; 2048] };
    for (i, byte) in bytes.iter().enumerate() {
        if i < 2048 {
            image.bytes[i] = *byte;
        }
    }
    image
}

/// No event.
pub fn nothing() -> Due {
    Due {
        edges: ArrayVec::new(),
        host: ArrayVec::new(),
    }
}

/// Those that a step took are handed in no more.
pub fn take_off(due: &mut Due, seen: &Seen) {
    for _ in 0..seen.edges {
        let _ = due.edges.pop_at(0);
    }
    for _ in 0..seen.host {
        let _ = due.host.pop_at(0);
    }
}

/// A row of an example: what happens to the joint machine, or what is so of it.
#[derive(Clone, Copy, Drop)]
enum Row {
    /// An edge of the key at column 3 and row 2 is handed in: its stamp, and whether the key goes down.
    Key(u64, bool),
    /// An event of the host is handed in.
    Host(u64, HostAct),
    /// Single steps lead to this cycle.
    To(u64),
    /// A single step takes so many edges and events, and says this.
    Step(u8, u8, &'static [Stamped]),
    /// Steps at once, before the last of them at most so many cycles, of which the last takes so many edges.
    Go(u64, u8),
    /// A single step is stuck at this place with this byte.
    StuckAt(u16, u8),
    /// Steps at once are stuck at this place with this byte.
    GoStuckAt(u16, u8),
    /// So many cycles and steps are done.
    Done(u64, u64),
    /// The wires have these levels after the first and after the last cycle of the last step.
    Showed(Lines),
    /// The wires have these levels now.
    Shows(Lines),
    /// A is this.
    A(u8),
    /// The next instruction is at this place.
    Pc(u16),
    /// The BIOS buffer has so many words.
    Words(usize),
}

use Row::{A, Done, Go, GoStuckAt, Host, Key, Pc, Showed, Shows, Step, StuckAt, To, Words};

/// A joint machine, what is handed in, and what the last step reported.
#[derive(Drop)]
struct Bench {
    joint: Joint,
    due: Due,
    seen: Seen,
}

impl Bench {
    /// Hands in an edge. Answers whether there was room.
    fn key(&mut self, stamp: u64, down: bool) -> bool {
        match Place::at(3, 2) {
            Some(place) => self.due.edges.try_push(Edge { stamp, place, down }).is_ok(),
            None => false,
        }
    }

    /// A single step. Answers whether the machine is near enough to its start for one.
    fn step(&mut self) -> Result<bool, Stuck> {
        if self.joint.cycle() >= 1_000_000 {
            return Ok(false);
        }
        let seen = self.joint.step(&self.due)?;
        take_off(&mut self.due, &seen);
        self.seen = seen;
        Ok(true)
    }

    /// Single steps up to this cycle. Answers whether they lead to it.
    fn run_to(&mut self, cycle: u64) -> bool {
        for _ in 0..10_000 {
            if self.joint.cycle() < cycle && self.step() != Ok(true) {
                return false;
            }
        }
        self.joint.cycle() == cycle
    }

    /// Steps at once, before the last of them at most so many cycles. Answers whether the machine is near enough for them.
    fn go(&mut self, most: u64) -> Result<bool, Stuck> {
        if self.joint.cycle() >= 1_000_000 || most >= 1_000_000 {
            return Ok(false);
        }
        go_on(&mut self.joint, &self.due, &mut self.seen, NOWHERE, most)?;
        take_off(&mut self.due, &self.seen);
        Ok(true)
    }

    /// Whether what a row says is so of the last step, or of the machine now.
    fn shows(&self, row: Row) -> bool {
        match row {
            Done(cycles, steps) => self.joint.cycle() == cycles && self.joint.steps() == steps,
            Showed(lines) => self.seen.lines == [lines, lines],
            Shows(lines) => self.joint.lines() == lines,
            A(a) => self.joint.mcu().a == a,
            Pc(pc) => self.joint.mcu().pc == pc,
            Words(count) => self.joint.bios().count() == count,
            _ => false,
        }
    }

    /// Plays a row. Answers whether what it says is so.
    fn is_so(&mut self, row: Row) -> bool {
        match row {
            Key(stamp, down) => self.key(stamp, down),
            Host(stamp, act) => self.due.host.try_push(HostEvent { stamp, act }).is_ok(),
            To(cycle) => self.run_to(cycle),
            Step(edges, host, said) => {
                self.step() == Ok(true)
                    && (self.seen.edges, self.seen.host) == (edges, host)
                    && self.seen.items.as_slice() == said
            }
            Go(most, edges) => self.go(most) == Ok(true) && self.seen.edges == edges,
            StuckAt(pc, byte) => self.step() == Err(Stuck { pc, byte }),
            GoStuckAt(pc, byte) => self.go(100) == Err(Stuck { pc, byte }),
            _ => self.shows(row),
        }
    }
}

/// Plays the rows of an example over a program that begins with these bytes.
fn play(rt: &impl Abort, alloc: Global, bytes: &[u8], rows: &[Row]) -> Result<(), Fail> {
    let mut bench = Bench {
        joint: Joint::power_on(&program(bytes), Bios::new(alloc)?),
        due: nothing(),
        seen: Seen::nothing(),
    };
    for (at, row) in rows.iter().enumerate() {
        assert!(rt; bench.is_so(*row), "row {at}");
    }
    Ok(())
}

/// Data pulled.
const DATA_LOW: Lines = Lines {
    clk: true,
    dat: false,
};

/// The clock pulled.
const CLOCK_LOW: Lines = Lines {
    clk: false,
    dat: true,
};

static LAMPS: [Stamped; 1] = [Stamped {
    cycle: 2,
    item: Item::Lights(7),
}];

static STATUS: [Stamped; 1] = [Stamped {
    cycle: 4097,
    item: Item::Status(0x1d),
}];

static TESTED: [Stamped; 1] = [Stamped {
    cycle: 4160,
    item: Item::Port(0x55),
}];

/// MOV A,#8DH; OUTL P2,A: all three lamps, and data pulled low.
#[test]
fn lamps_are_said_in_the_first_cycle_of_their_step(rt: HostRuntime) -> Result<(), Fail> {
    play(
        &rt,
        rt.alloc(),
        &[0x23, 0x8d, 0x3a],
        &[
            Step(0, 0, &[]),
            Done(2, 1),
            Showed(HIGH),
            Step(0, 0, &LAMPS),
            Showed(DATA_LOW),
            Step(0, 0, &[]),
            Done(5, 3),
            Shows(DATA_LOW),
        ],
    )
}

/// MOV A,#F3H; OUTL P1,A; then INS A,BUS and JMP 003 over and over: column 3 is read in every fourth cycle.
#[test]
fn an_edge_is_made_in_the_first_step_after_its_stamp(rt: HostRuntime) -> Result<(), Fail> {
    play(
        &rt,
        rt.alloc(),
        &[0x23, 0xf3, 0x39, 0x08, 0x04, 0x03],
        &[
            To(4092),
            Key(0, true),
            Key(3, false),
            Step(0, 0, &[]),
            A(0xff),
            Step(0, 0, &[]),
            A(0xff),
            Step(1, 0, &[]),
            A(0xfb),
            Step(0, 0, &[]),
            A(0xfb),
            Step(1, 0, &[]),
            A(0xff),
        ],
    )
}

/// JMP 000 over and over, two cycles each.
#[test]
fn one_event_a_cycle_and_the_hold_after_it(rt: HostRuntime) -> Result<(), Fail> {
    play(
        &rt,
        rt.alloc(),
        &[0x04, 0x00],
        &[
            To(4096),
            Host(0, HostAct::Write64(0xaa)),
            Host(0, HostAct::Status),
            Step(0, 2, &STATUS),
            Showed(CLOCK_LOW),
            // the byte is read 64 cycles after its filling, and the hold ends in that cycle
            To(4158),
            Shows(CLOCK_LOW),
            Step(0, 0, &[]),
            Step(0, 0, &TESTED),
            Showed(HIGH),
        ],
    )
}

/// A NOP, and a byte that begins no instruction.
#[test]
fn stuck_changes_nothing(rt: HostRuntime) -> Result<(), Fail> {
    play(
        &rt,
        rt.alloc(),
        &[0x00, 0x01],
        &[
            Step(0, 0, &[]),
            StuckAt(1, 0x01),
            Done(1, 1),
            Pc(1),
            Words(0),
        ],
    )
}

/// JMP 000 over and over, two cycles each: the edge is made in the first step that begins at its stamp or after it.
#[test]
fn an_edge_that_is_due_is_made_by_the_last_step(rt: HostRuntime) -> Result<(), Fail> {
    play(
        &rt,
        rt.alloc(),
        &[0x04, 0x00],
        &[
            Key(1, true),
            Go(10_000, 0),
            Done(4098, 2049),
            Go(10_000, 1),
            Done(4100, 2050),
        ],
    )
}

/// Three NOPs, and a byte that begins no instruction.
#[test]
fn if_the_processor_is_stuck_the_steps_before_are_kept(rt: HostRuntime) -> Result<(), Fail> {
    play(
        &rt,
        rt.alloc(),
        &[0x00, 0x00, 0x00, 0x01],
        &[GoStuckAt(3, 0x01), Done(3, 3)],
    )
}

/// JMP 000 over and over, two cycles each.
#[test]
fn the_last_step_begins_in_the_cycles_that_are_allowed(rt: HostRuntime) -> Result<(), Fail> {
    play(
        &rt,
        rt.alloc(),
        &[0x04, 0x00],
        &[
            Go(0, 0),
            Done(2, 1),
            Go(1, 0),
            Done(4, 2),
            Go(2, 0),
            Done(8, 4),
            Go(5, 0),
            Done(14, 7),
            Go(100, 0),
            Done(116, 58),
        ],
    )
}
