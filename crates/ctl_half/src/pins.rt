//! The pins of the input port, which command C0 reads.

ghost use Rattle.std.specs.Prelude.{◌≡◌, ◌&&◌, not, is_some, if◌then◌else◌};
ghost use Rattle.ctl_half.specs.Controllers.{is_pins_command, pins_in};

use ctl_core::{Controller, Input, Port};

/// The command of port 64h that reads the input port.
const READ_INPUT_PORT: u8 = 0xc0;

/// The pins that nobody has set: no jumper, and the lock is open. Source: our own.
const UNSET: u8 = 0xb0;

/// The levels at the pins.
pub(crate) fn pins_in(set: Option<u8>) -> u8
    ensures { result ≡ pins_in set }
{
    match set {
        Some(pins) => pins,
        None => UNSET,
    }
}

/// Whether the input buffer has the command that reads the pins.
#[inline(always)]
pub(crate) fn is_pins_command(core: &Controller) -> bool
    ensures { result ≡ is_pins_command core.now.input }
{
    match core.parts().input {
        Some(Input { port, byte }) => port == Port::P64 && byte == READ_INPUT_PORT,
        None => false,
    }
}

/// The byte that was put out last is another.
fn set_output(core: &mut Controller, byte: u8)
    ensures { core.new ≡ record core.old { output = byte } }
{
    let mut parts = core.parts();
    parts.output = byte;
    *core = Controller::of_parts(&parts);
}

/// If the command that reads the pins was taken, what it put out is the pins.
#[inline(always)]
pub(crate) fn put_pins(core: &mut Controller, asked: bool, pins: Option<u8>)
    ensures { core.new ≡ record core.old {
      output = if asked && not (is_some core.old.input) then pins_in pins else core.old.output;
    } }
{
    if asked && !core.input_full() {
        set_output(core, pins_in(pins));
    }
}
