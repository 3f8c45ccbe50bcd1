//! What C calls.

ghost use Rattle.std.specs.Prelude.{◌≡◌, ◌<◌, pos, Some};
ghost use Rattle.chip_core.specs.Chips.{after, cycles_of, next_of, powered_on, reset_of};
ghost use Rattle.chip_core.specs.Saves.{loaded, loaded_into, saved_of};
ghost use Rattle.kbd48_chip.specs.Words.{answer_of, load_status, pins_in};

use crate::chip_at::ChipAt;
use chip_core::{Chip, Saved};
use mcs48_core::Pins;

/// A program memory.
#[repr(C)]
#[derive(Drop)]
pub struct Program {
    pub bytes: [u8; 2048],
}

/// The levels at the pins.
#[inline(always)]
fn pins_in(levels: u32) -> Pins
    ensures { result ≡ pins_in levels }
{
    Pins {
        p1: (levels / 0x100 % 256) as u8,
        p2: (levels / 0x10000 % 256) as u8,
        bus: (levels % 256) as u8,
        t0: levels / 0x100_0000 % 2 == 1,
        t1: levels / 0x200_0000 % 2 == 1,
        int_pin: levels / 0x400_0000 % 2 == 1,
    }
}

/// What a step of so many cycles answers.
#[inline(always)]
fn answer(cycles: u8, chip: &Chip) -> i32
    requires { cycles < 3 }
    ensures { result ≡ pos (answer_of cycles chip.now) }
{
    let mcu = &chip.mcu;
    let latches = mcu.bus as u32 + ((mcu.p1 as u32) << 8) + ((mcu.p2 as u32) << 16);
    (latches + ((cycles as u32) << 24)) as i32
}

/// Switches the chip off, and on with this program. Data memory, A and T hold this byte then.
#[unsafe(no_mangle)]
pub extern "C" fn kbd48_chip_open_at(chip: &mut ChipAt, program: &Program, fill: u8)
    ensures chip { chip.new.chip ≡ powered_on fill program.now.bytes }
    ensures place { chip.new.at ≡ chip.old.at }
{
    chip.chip().power_on(&program.bytes, fill);
}

/// Pulls the reset pin for a moment.
#[unsafe(no_mangle)]
pub extern "C" fn kbd48_chip_reset_at(chip: &mut ChipAt)
    ensures chip { chip.new.chip ≡ reset_of chip.old.chip }
    ensures place { chip.new.at ≡ chip.old.at }
{
    chip.chip().reset();
}

/// One step with these levels at the pins. Answers the latches and the step's cycles, 1 or 2, or 0 if the processor is stuck;
/// then nothing has changed.
#[unsafe(no_mangle)]
pub extern "C" fn kbd48_chip_step_at(chip: &mut ChipAt, levels: u32) -> i32
    ensures chip { chip.new.chip ≡ after (next_of (pins_in levels) chip.old.chip) chip.old.chip }
    ensures answer { result
        ≡ pos (answer_of (cycles_of (next_of (pins_in levels) chip.old.chip)) chip.new.chip) }
    ensures place { chip.new.at ≡ chip.old.at }
{
    let it = chip.chip();
    let cycles = it.step(pins_in(levels));
    answer(cycles, it)
}

/// Writes the chip's state but for the program.
#[unsafe(no_mangle)]
pub extern "C" fn kbd48_chip_save_at(chip: &mut ChipAt, saved: &mut Saved)
    ensures saved { saved.new ≡ saved_of chip.old.chip }
    ensures loaded { loaded saved.new ≡ Some chip.old.chip.mcu }
    ensures unchanged { chip.new.chip ≡ chip.old.chip }
    ensures place { chip.new.at ≡ chip.old.at }
{
    chip.chip().save(saved);
}

/// Goes to this state; the program stays. Answers 1, or 0 if no processor has that state; then nothing has changed.
#[unsafe(no_mangle)]
pub extern "C" fn kbd48_chip_load_at(chip: &mut ChipAt, saved: &Saved) -> i32
    ensures chip { chip.new.chip ≡ loaded_into chip.old.chip (loaded saved.now) }
    ensures answer { result ≡ load_status (loaded saved.now) }
    ensures place { chip.new.at ≡ chip.old.at }
{
    i32::from(chip.chip().load(saved))
}
