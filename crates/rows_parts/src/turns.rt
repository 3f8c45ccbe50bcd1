//! Worked examples of the host's turn, cycle by cycle, as tables: what happens, and what is so then. Of a byte under way no
//! more is known here than whether it may be broken off.

ghost use Rattle.std.specs.Prelude.{◌≡◌, ◌≤◌, length};

use arrayvec::ArrayVec;
use board_terms::{HostAct, HostEvent};
use ctl_link::{Link, Passing};
use host_turn::Desk;
use int09::Bios;
use pc_tables::Item;
use std::alloc::Global;
use std::process::Abort;
use std::test::Fail;

/// A byte under way that may be broken off, or not.
#[derive(Clone, Copy, Debug, PartialEq, Eq, Drop)]
struct Open(bool);

impl Passing for Open {
    ghost breaks = { λ byte. byte.0 };

    fn may_break(&self) -> bool {
        self.0
    }
}

/// A row of an example: a cycle, a change of the link, or what is so then.
#[derive(Clone, Copy, Drop)]
enum Row {
    /// A cycle with no event next, and what is said.
    Idle(u64, &'static [Item]),
    /// A cycle with an event next that is done, by its stamp, and what is said.
    Done(u64, u64, HostAct, &'static [Item]),
    /// A cycle with an event next that isn't done, by its stamp, while nothing is said.
    Waits(u64, u64, HostAct),
    /// A byte of the keyboard has come whole in this cycle, while the output buffer is empty.
    Comes(u64, u8),
    /// A byte is under way that may be broken off, or not.
    Passes(bool),
    /// The link is this.
    Is(Link<Open>),
    /// The output buffer was last filled in this cycle.
    Filled(u64),
    /// Whether the input buffer is full.
    InputFull(bool),
    /// The flip that is pending.
    Pending(Option<u8>),
    /// A frame begins, and takes this flip.
    Takes(Option<u8>),
}

use Row::{Comes, Done, Filled, Idle, InputFull, Is, Passes, Pending, Takes, Waits};

/// A cycle with this event next. Answers whether it is done, and whether just these items are said.
fn goes_on(
    desk: &mut Desk<Open>,
    now: u64,
    next: Option<HostEvent>,
    said: &[Item],
) -> (bool, bool) {
    let mut items: ArrayVec<Item, 16> = ArrayVec::new();
    let done = desk.go_on(now, next, &mut items);
    (done, items.as_slice() == said)
}

/// An event of the host. Stamps count from cycle 4,096 on.
fn event(stamp: u64, act: HostAct) -> Option<HostEvent> {
    Some(HostEvent { stamp, act })
}

/// Plays a row. Answers whether what it says is so.
fn is_so(desk: &mut Desk<Open>, row: Row) -> bool {
    match row {
        Idle(now, said) => goes_on(desk, now, None, said) == (false, true),
        Done(now, stamp, act, said) => goes_on(desk, now, event(stamp, act), said) == (true, true),
        Waits(now, stamp, act) => goes_on(desk, now, event(stamp, act), &[]) == (false, true),
        Comes(_, _) if desk.port.core.output_full() => false,
        Comes(now, byte) => {
            desk.port.receive(now, Some(byte));
            true
        }
        Passes(open) => {
            desk.port.link = Link::Busy(Open(open));
            true
        }
        Is(link) => desk.port.link == link,
        Filled(cycle) => desk.port.filled == cycle,
        InputFull(full) => desk.port.core.input_full() == full,
        Pending(flip) => desk.port.flip == flip,
        Takes(flip) => desk.port.take_flip() == flip,
    }
}

/// Plays the rows of an example, from the start on.
fn play(rt: &impl Abort, alloc: Global, rows: &[Row]) -> Result<(), Fail> {
    let mut desk: Desk<Open> = Desk::new(Bios::new(alloc)?);
    for (at, row) in rows.iter().enumerate() {
        assert!(rt; is_so(&mut desk, *row), "row {at}");
    }
    Ok(())
}

#[test]
fn an_event_is_done_in_the_cycle_of_its_stamp(rt: HostRuntime) -> Result<(), Fail> {
    play(
        &rt,
        rt.alloc(),
        &[
            Waits(4105, 10, HostAct::Status),
            Done(4106, 10, HostAct::Status, &[Item::Status(0x14)]),
            Done(4107, 0, HostAct::Read60, &[Item::Read(0x00)]),
            Done(4108, 0, HostAct::Take, &[Item::Taken(None)]),
        ],
    )
}

#[test]
fn a_write_waits_while_the_input_buffer_is_full(rt: HostRuntime) -> Result<(), Fail> {
    play(
        &rt,
        rt.alloc(),
        &[
            Done(5000, 0, HostAct::Mask, &[]),
            // the self test's answer fills the output buffer, so what is written next stays in the input buffer
            Done(5001, 0, HostAct::Write64(0xaa), &[]),
            Filled(5001),
            Done(5002, 0, HostAct::Write60(0xf4), &[]),
            Waits(5003, 0, HostAct::Write60(0xf5)),
            Waits(5004, 0, HostAct::Write60(0xf5)),
            // a read isn't held up, but it is after the write in the order of events; done here, it lets F4 be taken
            Done(5005, 0, HostAct::Read60, &[Item::Read(0x55)]),
            Is(Link::Ask(0xf4, 5001)),
            Done(5006, 0, HostAct::Write60(0xf5), &[]),
            InputFull(true),
        ],
    )
}

#[test]
fn a_byte_is_read_64_cycles_after_the_filling(rt: HostRuntime) -> Result<(), Fail> {
    play(
        &rt,
        rt.alloc(),
        &[
            Done(5000, 0, HostAct::Write64(0xaa), &[]),
            Idle(5063, &[]),
            Idle(5064, &[Item::Port(0x55)]),
            Idle(5065, &[]),
            Is(Link::Free),
        ],
    )
}

#[test]
fn a_masked_byte_is_read_in_the_cycle_that_unmasks(rt: HostRuntime) -> Result<(), Fail> {
    play(
        &rt,
        rt.alloc(),
        &[
            Done(5000, 0, HostAct::Mask, &[]),
            Done(5001, 0, HostAct::Write64(0xab), &[]),
            Idle(5200, &[]),
            Done(5201, 0, HostAct::Unmask, &[Item::Port(0x00)]),
        ],
    )
}

#[test]
fn the_items_of_a_cycle_are_in_their_order(rt: HostRuntime) -> Result<(), Fail> {
    play(
        &rt,
        rt.alloc(),
        &[
            Comes(5000, 0x1c),
            // the read empties the output buffer, so what the host writes is taken in the same cycle
            Done(
                5064,
                0,
                HostAct::Write64(0xfe),
                &[Item::Port(0x1e), Item::Word(0x1e61), Item::Pulse(0x0e)],
            ),
            Is(Link::Free),
            Done(5065, 0, HostAct::Take, &[Item::Taken(Some(0x1e61))]),
        ],
    )
}

#[test]
fn the_last_flip_is_pending(rt: HostRuntime) -> Result<(), Fail> {
    play(
        &rt,
        rt.alloc(),
        &[
            Done(5000, 0, HostAct::Flip(3), &[]),
            Pending(Some(3)),
            Done(5001, 905, HostAct::Flip(8), &[]),
            Idle(5002, &[]),
            Pending(Some(8)),
            Takes(Some(8)),
            Pending(None),
        ],
    )
}

#[test]
fn a_write_breaks_off_an_open_byte_and_is_taken_at_once(rt: HostRuntime) -> Result<(), Fail> {
    play(
        &rt,
        rt.alloc(),
        &[
            Passes(true),
            Done(5000, 0, HostAct::Write60(0xed), &[]),
            Is(Link::Ask(0xed, 5000)),
            InputFull(false),
        ],
    )
}

#[test]
fn a_write_breaks_off_no_other_byte_and_waits(rt: HostRuntime) -> Result<(), Fail> {
    play(
        &rt,
        rt.alloc(),
        &[
            Passes(false),
            Done(5000, 0, HostAct::Write60(0xed), &[]),
            Is(Link::Busy(Open(false))),
            InputFull(true),
        ],
    )
}
