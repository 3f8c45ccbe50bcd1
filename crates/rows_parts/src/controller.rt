//! Worked examples of the commands and of the translation, as tables: what happens, and what is so then.

use ctl_core::{Controller, Did, InputFull, Port, Received};
use std::process::Abort;

/// A row of an example.
#[derive(Clone, Copy, Drop)]
enum Row {
    /// The host writes a byte to a port, and gets this answer.
    Write(Port, u8, Result<(), InputFull>),
    /// The host's byte is taken, while the output buffer is empty, and does this.
    Take(Did),
    /// The host writes a byte and finds room; it is taken, while the output buffer is empty, and does this; and the command
    /// byte after it.
    Does(Port, u8, Did, u8),
    /// A byte of the keyboard comes, while the output buffer is empty, and what it puts out is read.
    Sent(u8, Option<u8>),
    /// The status byte is this.
    Status(u8),
    /// The host reads this byte from port 60h.
    Read(u8),
}

use Did::{Nothing, Output, Pulse, ToKeyboard};
use Port::{P60, P64};
use Row::{Does, Read, Sent, Status, Take, Write};

/// Has the host's byte taken. Answers whether it does this.
fn takes(controller: &mut Controller, did: Did) -> bool {
    !controller.output_full() && controller.take_input() == Some(did)
}

/// Plays a row. Answers whether what it says is so.
fn is_so(controller: &mut Controller, row: Row) -> bool {
    match row {
        Write(port, byte, answer) => controller.host_write(port, byte) == answer,
        Take(did) => takes(controller, did),
        Does(port, byte, did, command_byte) => {
            controller.host_write(port, byte).is_ok()
                && takes(controller, did)
                && controller.command_byte() == command_byte
        }
        Sent(_, _) if controller.output_full() => false,
        Sent(byte, code) => match controller.receive(byte, true) {
            Received::Put => Some(controller.host_read60()) == code,
            Received::Marked | Received::Bad | Received::GaveUp => code.is_none(),
        },
        Status(byte) => controller.status() == byte,
        Read(byte) => controller.host_read60() == byte,
    }
}

/// Plays the rows of an example, from the start on.
fn play(rt: &impl Abort, rows: &[Row]) {
    let mut controller = Controller::new();
    for (at, row) in rows.iter().enumerate() {
        assert!(rt; is_so(&mut controller, *row), "row {at}");
    }
}

#[test]
fn the_command_byte_is_read(rt: HostRuntime) {
    play(
        &rt,
        &[
            Write(P64, 0x20, Ok(())),
            Write(P64, 0x20, Err(InputFull { status: 0x1e })),
            Take(Nothing),
            Status(0x1d),
            Read(0x45),
            Status(0x1c),
        ],
    );
}

#[test]
fn commands_do_what_they_say(rt: HostRuntime) {
    play(
        &rt,
        &[
            Does(P64, 0xad, Nothing, 0x55),
            Does(P60, 0xf4, ToKeyboard(0xf4), 0x45),
            Does(P64, 0xd1, Nothing, 0x45),
            Does(P60, 0xdd, Output(0xdd), 0x45),
            Does(P64, 0x60, Nothing, 0x45),
            Does(P64, 0xfe, Pulse(0x0e), 0x45),
            Does(P60, 0xed, ToKeyboard(0xed), 0x45),
            Does(P64, 0xd0, Nothing, 0x45),
            Read(0xdd),
        ],
    );
}

/// Ctrl with Scroll Lock, an overrun, an answer between F0 and its code, F7, and the self test's answer; then a byte without
/// translation.
#[test]
fn keys_are_translated(rt: HostRuntime) {
    play(
        &rt,
        &[
            Sent(0x14, Some(0x1d)),
            Sent(0x7e, Some(0x46)),
            Sent(0xf0, None),
            Sent(0x7e, Some(0xc6)),
            Sent(0xf0, None),
            Sent(0x14, Some(0x9d)),
            Sent(0x00, Some(0xff)),
            Sent(0xf0, None),
            Sent(0xfa, Some(0xfa)),
            Sent(0x1c, Some(0x9e)),
            Sent(0xf0, None),
            Sent(0x83, Some(0xc1)),
            Sent(0xaa, Some(0xaa)),
            Does(P64, 0x60, Nothing, 0x45),
            Does(P60, 0x05, Nothing, 0x05),
            Sent(0xf0, Some(0xf0)),
        ],
    );
}
