//! What C calls of the controller.

ghost use Rattle.std.specs.Prelude.{◌≡◌, ◌<◌, pos, Some, is_some};
ghost use Rattle.ctl_core.specs.Controller.{emptied};
ghost use Rattle.ctl_wire.specs.Wire.{drive};
ghost use Rattle.ctl_half.specs.Controllers.{interrupts, is_turnable, looked, reset_of, settles, settling};
ghost use Rattle.ctl_half.specs.Controllers.{with_core, with_flip, with_pins};
ghost use Rattle.ctl_half.specs.Saves.{gone_back, loaded, saved_of};
ghost use Rattle.kbd48_halves.specs.Words.{did_of, is_empty, levels_of, lines_in, port_of, registers_of, truth_of, write_by};

use crate::controller_at::ControllerAt;
use crate::levels::{levels_of, lines_in};
use ctl_core::{Controller, Did, Port};
use ctl_half::SavedController;

/// What is seen of the controller: what port 64h reads, what port 60h would read, the command byte, and the last byte for
/// the output port.
#[repr(C)]
#[derive(Drop)]
pub struct Registers {
    pub status: u8,
    pub output: u8,
    pub command_byte: u8,
    pub output_port: u8,
}

/// The port that a command or a data byte goes to.
fn port_of(command: bool) -> Port
    ensures { result ≡ port_of command }
{
    if command { Port::P64 } else { Port::P60 }
}

/// What the input that was taken did, as a number.
#[inline(always)]
fn did_of(did: Did) -> i32
    ensures { result ≡ pos (did_of did) }
{
    match did {
        Did::Nothing => 0,
        Did::ToKeyboard(byte) => 0x100 + i32::from(byte),
        Did::Output(byte) => 0x200 + i32::from(byte),
        Did::Pulse(lines) => 0x300 + i32::from(lines),
    }
}

/// The controller's registers.
fn registers_of(core: &Controller) -> Registers
    ensures { result ≡ registers_of core.now }
{
    Registers {
        status: core.status(),
        output: core.output(),
        command_byte: core.command_byte(),
        output_port: core.output_port(),
    }
}

/// Resets the controller: it is as at power-on, but the pins of its input port stay as they are.
#[unsafe(no_mangle)]
pub extern "C" fn kbd48_controller_reset_at(controller: &mut ControllerAt)
    ensures controller { controller.new.controller ≡ reset_of controller.old.controller }
    ensures place { controller.new.at ≡ controller.old.at }
{
    controller.controller().reset();
}

/// The pins of the input port have these levels from now on.
#[unsafe(no_mangle)]
pub extern "C" fn kbd48_controller_pins_at(controller: &mut ControllerAt, pins: u8)
    ensures controller { controller.new.controller ≡ with_pins pins controller.old.controller }
    ensures place { controller.new.at ≡ controller.old.at }
{
    controller.controller().set_pins(pins);
}

/// The look of cycle `now` at the wires, which have these levels.
#[unsafe(no_mangle)]
pub extern "C" fn kbd48_controller_look_at(controller: &mut ControllerAt, now: u64, levels: u32)
    ensures controller { controller.new.controller ≡ looked now (lines_in levels) controller.old.controller }
    ensures place { controller.new.at ≡ controller.old.at }
{
    controller.controller().look(now, lines_in(levels));
}

/// The host writes a byte: a command to port 64h, data to 60h. Answers 1, or 0 if the input buffer is full; then nothing
/// has changed.
#[unsafe(no_mangle)]
pub extern "C" fn kbd48_controller_write_at(
    controller: &mut ControllerAt,
    command: bool,
    byte: u8,
) -> i32
    ensures controller { controller.new.controller
        ≡ write_by controller.old.controller.port.core.input (port_of command) byte controller.old.controller }
    ensures answer { result ≡ truth_of (is_empty controller.old.controller.port.core.input) }
    ensures place { controller.new.at ≡ controller.old.at }
{
    let done = controller
        .controller()
        .host_write(port_of(command), byte)
        .is_ok();
    i32::from(done)
}

/// The host reads port 60h.
#[unsafe(no_mangle)]
pub extern "C" fn kbd48_controller_read60_at(controller: &mut ControllerAt) -> i32
    ensures byte { result ≡ pos controller.old.controller.port.core.output }
    ensures controller { controller.new.controller
        ≡ with_core (emptied controller.old.controller.port.core) controller.old.controller }
    ensures place { controller.new.at ≡ controller.old.at }
{
    i32::from(controller.controller().host_read60())
}

/// Noise turns round a bit of the next frame of the keyboard, 1 to 9. Answers 1, or 0 for any other bit; then nothing has
/// changed.
#[unsafe(no_mangle)]
pub extern "C" fn kbd48_controller_flip_at(controller: &mut ControllerAt, bit: u8) -> i32
    ensures controller { controller.new.controller ≡ with_flip bit controller.old.controller }
    ensures answer { result ≡ truth_of (is_turnable bit) }
    ensures place { controller.new.at ≡ controller.old.at }
{
    i32::from(controller.controller().flip(bit))
}

/// The controller settles at the end of cycle `now`. Answers what the input that it took did.
#[unsafe(no_mangle)]
pub extern "C" fn kbd48_controller_settle_at(controller: &mut ControllerAt, now: u64) -> i32
    ensures controller { controller.new.controller ≡ settles now controller.old.controller }
    ensures did { result ≡ pos (did_of (settling now controller.old.controller).did) }
    ensures place { controller.new.at ≡ controller.old.at }
{
    did_of(controller.controller().settle(now))
}

/// The levels that the controller drives on the wires.
#[unsafe(no_mangle)]
pub extern "C" fn kbd48_controller_drive_at(controller: &mut ControllerAt) -> i32
    ensures driven { result ≡ pos (levels_of (drive controller.old.controller.port.link)) }
    ensures unchanged { controller.new.controller ≡ controller.old.controller }
    ensures place { controller.new.at ≡ controller.old.at }
{
    levels_of(controller.controller().drives()) as i32
}

/// Whether the interrupt line is up.
#[unsafe(no_mangle)]
pub extern "C" fn kbd48_controller_interrupt_at(controller: &mut ControllerAt) -> i32
    ensures up { result ≡ truth_of (interrupts controller.old.controller) }
    ensures unchanged { controller.new.controller ≡ controller.old.controller }
    ensures place { controller.new.at ≡ controller.old.at }
{
    i32::from(controller.controller().interrupts())
}

/// What is seen of the controller.
#[unsafe(no_mangle)]
pub extern "C" fn kbd48_controller_registers_at(
    controller: &mut ControllerAt,
    registers: &mut Registers,
)
    ensures registers { registers.new ≡ registers_of controller.old.controller.port.core }
    ensures unchanged { controller.new.controller ≡ controller.old.controller }
    ensures place { controller.new.at ≡ controller.old.at }
{
    *registers = registers_of(controller.controller().buffers());
}

/// Writes the controller's state.
#[unsafe(no_mangle)]
pub extern "C" fn kbd48_controller_save_at(
    controller: &mut ControllerAt,
    saved: &mut SavedController,
)
    ensures saved { saved.new ≡ saved_of controller.old.controller }
    ensures loaded { loaded saved.new ≡ Some controller.old.controller }
    ensures unchanged { controller.new.controller ≡ controller.old.controller }
    ensures place { controller.new.at ≡ controller.old.at }
{
    controller.controller().save(saved);
}

/// Goes to this state. Answers 1, or 0 if no controller has it; then nothing has changed.
#[unsafe(no_mangle)]
pub extern "C" fn kbd48_controller_load_at(
    controller: &mut ControllerAt,
    saved: &SavedController,
) -> i32
    ensures controller { controller.new.controller ≡ gone_back (loaded saved.now) controller.old.controller }
    ensures answer { result ≡ truth_of (is_some (loaded saved.now)) }
    ensures place { controller.new.at ≡ controller.old.at }
{
    i32::from(controller.controller().load(saved))
}
