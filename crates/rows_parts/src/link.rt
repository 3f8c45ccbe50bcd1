//! Worked examples, cycle by cycle, as tables: what happens, and what is so then. What is known of a byte under way is a
//! number here.

use ctl_core::{Did, Port as HostPort};
use ctl_link::{Link, LinkEnd, Passing};
use std::process::Abort;

/// A row of an example: what happens to the controller's end of the link, or what is so of it.
#[derive(Clone, Copy, Drop)]
enum Row {
    /// The host writes a byte to a port, and finds room.
    Write(HostPort, u8),
    /// The host reads this byte from port 60h.
    Read(u8),
    /// A byte of the keyboard has come whole in a cycle, or wrong, while the output buffer is empty.
    Comes(u64, Option<u8>),
    /// A byte for the keyboard has gone whole, while the output buffer is empty.
    HandedOver,
    /// A cycle ends, and the input taken did this.
    Settle(u64, Did),
    /// The link is this.
    Is(Link<u8>),
    /// The output buffer was last filled in this cycle.
    Filled(u64),
    /// Whether the input buffer is full.
    InputFull(bool),
    /// Whether the output buffer is full.
    OutputFull(bool),
    /// How many times in a row a byte was asked for again.
    Resends(u8),
    /// The status byte is this.
    Status(u8),
}

use Did::{Nothing, ToKeyboard};
use HostPort::{P60, P64};
use Row::{
    Comes, Filled, HandedOver, InputFull, Is, OutputFull, Read, Resends, Settle, Status, Write,
};

/// Plays a row. Answers whether what it says is so.
fn is_so(port: &mut LinkEnd<u8>, row: Row) -> bool {
    match row {
        Write(to, byte) => port.core.host_write(to, byte).is_ok(),
        Read(byte) => port.core.host_read60() == byte,
        Comes(_, _) | HandedOver if port.core.output_full() => false,
        Comes(now, byte) => {
            port.receive(now, byte);
            true
        }
        HandedOver => {
            port.hand_over();
            true
        }
        Settle(now, did) => port.settle(now) == did,
        Is(link) => port.link == link,
        Filled(cycle) => port.filled == cycle,
        InputFull(full) => port.core.input_full() == full,
        OutputFull(full) => port.core.output_full() == full,
        Resends(count) => port.core.resends() == count,
        Status(byte) => port.core.status() == byte,
    }
}

/// Plays the rows of an example, from the start on.
fn play(rt: &impl Abort, rows: &[Row]) {
    let mut port: LinkEnd<u8> = LinkEnd::new();
    for (at, row) in rows.iter().enumerate() {
        assert!(rt; is_so(&mut port, *row), "row {at}");
    }
}

#[test]
fn a_hold_lasts_64_cycles(rt: HostRuntime) {
    play(
        &rt,
        &[
            Write(P64, 0xaa),
            Settle(10, Nothing),
            Is(Link::Hold(10)),
            Filled(10),
            Read(0x55),
            Settle(73, Nothing),
            Is(Link::Hold(10)),
            Settle(74, Nothing),
            Is(Link::Free),
        ],
    );
}

#[test]
fn a_byte_for_the_keyboard_is_asked_for_and_then_requested(rt: HostRuntime) {
    play(
        &rt,
        &[
            Write(P60, 0xed),
            Settle(20, ToKeyboard(0xed)),
            Is(Link::Ask(0xed, 20)),
            Settle(83, Nothing),
            Is(Link::Ask(0xed, 20)),
            Settle(84, Nothing),
            Is(Link::Request(0xed)),
            Settle(1000, Nothing),
            Is(Link::Request(0xed)),
        ],
    );
}

#[test]
fn a_hold_counts_for_the_ask_after_it(rt: HostRuntime) {
    play(
        &rt,
        &[
            Write(P64, 0xab),
            Settle(10, Nothing),
            Read(0x00),
            Write(P60, 0xf4),
            Settle(40, ToKeyboard(0xf4)),
            Is(Link::Ask(0xf4, 10)),
            Settle(73, Nothing),
            Is(Link::Ask(0xf4, 10)),
            Settle(74, Nothing),
            Is(Link::Request(0xf4)),
        ],
    );
}

#[test]
fn a_long_hold_becomes_a_request_at_once(rt: HostRuntime) {
    play(
        &rt,
        &[
            Write(P64, 0xab),
            Settle(10, Nothing),
            Settle(90, Nothing),
            Read(0x00),
            Write(P60, 0xf4),
            Settle(91, ToKeyboard(0xf4)),
            Is(Link::Request(0xf4)),
        ],
    );
}

#[test]
fn nothing_is_taken_while_the_output_buffer_is_full(rt: HostRuntime) {
    play(
        &rt,
        &[
            Write(P64, 0xaa),
            Settle(10, Nothing),
            Write(P60, 0xf4),
            Settle(500, Nothing),
            Is(Link::Hold(10)),
            InputFull(true),
        ],
    );
}

#[test]
fn nothing_is_taken_while_a_reply_is_awaited(rt: HostRuntime) {
    play(
        &rt,
        &[
            HandedOver,
            Write(P60, 0xf4),
            Settle(100, Nothing),
            Is(Link::Free),
            Comes(200, Some(0xfa)),
            Is(Link::Hold(200)),
            Filled(200),
            Read(0xfa),
            Settle(201, ToKeyboard(0xf4)),
            Is(Link::Ask(0xf4, 200)),
        ],
    );
}

#[test]
fn a_disabled_keyboard_is_held_off(rt: HostRuntime) {
    play(
        &rt,
        &[
            Write(P64, 0xad),
            Settle(5, Nothing),
            Is(Link::Hold(5)),
            Settle(300, Nothing),
            Is(Link::Hold(5)),
            Write(P64, 0xae),
            Settle(301, Nothing),
            Is(Link::Free),
        ],
    );
}

#[test]
fn the_start_of_a_break_fills_nothing(rt: HostRuntime) {
    play(
        &rt,
        &[
            Comes(100, Some(0xf0)),
            Is(Link::Hold(100)),
            Filled(0),
            Comes(700, Some(0x1c)),
            Filled(700),
            Read(0x9e),
        ],
    );
}

#[test]
fn a_byte_that_comes_wrong_is_asked_for_three_times(rt: HostRuntime) {
    play(
        &rt,
        &[
            Comes(100, None),
            Is(Link::Ask(0xfe, 100)),
            Resends(1),
            Comes(100, None),
            Is(Link::Ask(0xfe, 100)),
            Resends(2),
            Comes(100, None),
            Is(Link::Ask(0xfe, 100)),
            Resends(3),
            Comes(700, None),
            Is(Link::Hold(700)),
            Resends(0),
            Filled(700),
            Status(0x95),
            Read(0xff),
            Status(0x94),
        ],
    );
}

/// A byte under way that may be broken off, or not.
#[derive(Clone, Copy, Debug, PartialEq, Eq, Drop)]
struct Open(bool);

impl Passing for Open {
    ghost breaks = { λ byte. byte.0 };

    fn may_break(&self) -> bool {
        self.0
    }
}

/// Whether a byte under way is broken off in cycle 50.
fn is_broken(rt: &impl Abort, open: bool, awaits: bool, full: bool) -> bool {
    let mut port: LinkEnd<Open> = LinkEnd::new();
    port.link = Link::Busy(Open(open));
    port.awaits = awaits;
    if full {
        assert!(rt; port.core.host_write(HostPort::P64, 0xae).is_ok());
    }
    port.break_off(50);
    port.link == Link::Hold(50)
}

#[test]
fn a_waiting_input_breaks_off_an_open_byte(rt: HostRuntime) {
    assert!(rt; is_broken(&rt, true, false, true));
    assert!(rt; !is_broken(&rt, false, false, true));
    assert!(rt; !is_broken(&rt, true, true, true));
    assert!(rt; !is_broken(&rt, true, false, false));
}
