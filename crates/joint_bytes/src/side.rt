//! The bytes of what is outside the processor: the controller, the PC beside it, and INT 09h.

ghost use Rattle.std.specs.Prelude.{◌≡◌, [], length};
ghost use Rattle.int09.specs.Flags.{flags_of};
ghost use Rattle.mcs48_bytes.specs.Numbers.{byte_or_0};
ghost use Rattle.joint_bytes.specs.Sides.{
  awaited_by,
  awaited_byte,
  bios_in,
  controller_bytes,
  controller_in,
  input_by,
  input_byte,
  input_kind,
  side_bytes,
  side_in,
};

use ctl_core::{Buffers, Controller, Input, Parameter, Port};
use ctl_link::{Link, LinkEnd};
use ctl_wire::Wire;
use host_turn::Desk;
use int09::{Bios, Flags9};
use joint_run::Outside;
use mcs48_bytes::{maybe_at, number_at, truth_at};

/// The kind of what is in the input buffer, and its byte.
fn input_bytes(input: Option<Input>) -> (u8, u8)
    ensures kind { result.0 ≡ input_kind input }
    ensures byte { result.1 ≡ input_byte input }
{
    match input {
        None => (0, 0),
        Some(
            Input {
                port: Port::P60,
                byte,
            },
        ) => (1, byte),
        Some(
            Input {
                port: Port::P64,
                byte,
            },
        ) => (2, byte),
    }
}

/// The input buffer by its two bytes.
fn input_by(kind: u8, byte: u8) -> Option<Input>
    ensures { result ≡ input_by kind byte }
{
    match kind {
        0 => None,
        1 => Some(Input {
            port: Port::P60,
            byte,
        }),
        _ => Some(Input {
            port: Port::P64,
            byte,
        }),
    }
}

/// The parameter that is awaited, as a byte.
fn awaited_byte(awaited: Option<Parameter>) -> u8
    ensures { result ≡ awaited_byte awaited }
{
    match awaited {
        None => 0,
        Some(Parameter::CommandByte) => 1,
        Some(Parameter::OutputPort) => 2,
    }
}

/// The parameter that is awaited, by its byte.
fn awaited_by(byte: u8) -> Option<Parameter>
    ensures { result ≡ awaited_by byte }
{
    match byte {
        0 => None,
        1 => Some(Parameter::CommandByte),
        _ => Some(Parameter::OutputPort),
    }
}

/// A byte, or 0.
pub(crate) fn byte_or_0(byte: Option<u8>) -> u8
    ensures { result ≡ byte_or_0 byte }
{
    match byte {
        Some(byte) => byte,
        None => 0,
    }
}

/// The controller's bytes. They are read as this controller.
pub fn controller_bytes(controller: &Controller) -> [u8; 11]
    ensures bytes { result ≡ controller_bytes controller.now }
    ensures read { controller_in result ≡ controller.now }
{
    let parts = controller.parts();
    let (kind, byte) = input_bytes(parts.input);
    [
        kind,
        byte,
        u8::from(parts.output_full),
        parts.output,
        parts.command_byte,
        awaited_byte(parts.awaited),
        parts.output_port,
        u8::from(parts.break_mark),
        u8::from(parts.parity),
        u8::from(parts.last_to_64),
        parts.resends,
    ]
}

/// The controller that these bytes mean.
pub fn controller_in(bytes: &[u8]) -> Controller
    requires { length bytes.now ≡ 11 }
    ensures { result ≡ controller_in bytes.now }
{
    Controller::of_parts(&Buffers {
        input: input_by(bytes[0], bytes[1]),
        output_full: truth_at(bytes, 2),
        output: bytes[3],
        command_byte: bytes[4],
        awaited: awaited_by(bytes[5]),
        output_port: bytes[6],
        break_mark: truth_at(bytes, 7),
        parity: truth_at(bytes, 8),
        last_to_64: truth_at(bytes, 9),
        resends: bytes[10],
    })
}

/// The bytes of what is outside the processor, but for the controller's, the link and the words.
pub fn side_bytes(outside: &Outside) -> [u8; 19]
    ensures bytes { result ≡ side_bytes outside.now }
    ensures read { side_in (controller_bytes outside.now.desk.port.core) result outside.now.desk.port.link
        outside.now.desk.bios.words ≡ outside.now }
{
    let port = &outside.desk.port;
    let flags = outside.desk.bios.flags();
    let [a, b, c, d, e, f, g, h] = port.filled.to_le_bytes();
    [
        a,
        b,
        c,
        d,
        e,
        f,
        g,
        h,
        u8::from(port.awaits),
        u8::from(port.flip.is_some()),
        byte_or_0(port.flip),
        u8::from(outside.clock),
        outside.shown,
        u8::from(outside.desk.masked),
        flags.b17,
        flags.b18,
        u8::from(flags.ack),
        u8::from(flags.resend),
        flags.number,
    ]
}

/// INT 09h's parts but for the words, by these bytes.
pub fn flags_in(bytes: &[u8]) -> Flags9
    requires { length bytes.now ≡ 19 }
    ensures { result ≡ flags_of (bios_in bytes.now []) }
{
    Flags9 {
        b17: bytes[14],
        b18: bytes[15],
        ack: truth_at(bytes, 16),
        resend: truth_at(bytes, 17),
        number: bytes[18],
    }
}

/// What is outside the processor by the controller's bytes and these, with this link and this INT 09h.
pub fn side_in(controller: &[u8], bytes: &[u8], link: Link<Wire>, bios: Bios) -> Outside
    requires controller { length controller.now ≡ 11 }
    requires bytes { length bytes.now ≡ 19 }
    requires bios { bios ≡ bios_in bytes.now bios.words }
    ensures { result ≡ side_in controller.now bytes.now link bios.words }
{
    Outside {
        desk: Desk {
            port: LinkEnd {
                core: controller_in(controller),
                filled: number_at(bytes, 0),
                link,
                awaits: truth_at(bytes, 8),
                flip: maybe_at(bytes, 9),
            },
            masked: truth_at(bytes, 13),
            bios,
        },
        clock: truth_at(bytes, 11),
        shown: bytes[12],
    }
}
