//! What C calls of the keyboard.

ghost use Rattle.std.specs.Prelude.{◌≡◌, ◌≤◌, pos, Some, nat_lt, is_some};
ghost use Rattle.board_terms.specs.Columns.{keys_in};
ghost use Rattle.chip_core.specs.Chips.{after, cycles_of, next_of, reset_of};
ghost use Rattle.chip_core.specs.Saves.{loaded, saved_of};
ghost use Rattle.joint_run.specs.Joint.{latch_of, lights_of};
ghost use Rattle.kbd_half.specs.Keyboards.{keyboard_on, pins_at, with_chip};
ghost use Rattle.kbd_half.specs.Rests.{RestsFor};
ghost use Rattle.kbd_half.specs.Saves.{gone_back};
ghost use Rattle.kbd48_halves.specs.Words.{keyed, levels_of, lines_in, truth_of};

use crate::keyboard_at::KeyboardAt;
use crate::levels::{levels_of, lines_in};
use board_terms::Place;
use kbd_half::SavedKeyboard;

/// A program memory.
#[repr(C)]
#[derive(Drop)]
pub struct Program {
    pub bytes: [u8; 2048],
}

/// Switches the keyboard off, and on with this program, with all keys up. The processor's data memory, A and T hold this byte
/// then.
#[unsafe(no_mangle)]
pub extern "C" fn kbd48_keyboard_open_at(keyboard: &mut KeyboardAt, program: &Program, fill: u8)
    ensures keyboard { keyboard.new.keyboard ≡ keyboard_on fill program.now.bytes }
    ensures place { keyboard.new.at ≡ keyboard.old.at }
{
    keyboard.keyboard().power_on(&program.bytes, fill);
}

/// Pulls the processor's reset pin for a moment. The keys stay as they are.
#[unsafe(no_mangle)]
pub extern "C" fn kbd48_keyboard_reset_at(keyboard: &mut KeyboardAt)
    ensures keyboard { keyboard.new.keyboard ≡ with_chip (reset_of keyboard.old.keyboard.chip) keyboard.old.keyboard }
    ensures place { keyboard.new.at ≡ keyboard.old.at }
{
    keyboard.keyboard().reset();
}

/// The key at a place, 0 to 95, goes down or up. Answers 1, or 0 for any other place; then nothing has changed.
#[unsafe(no_mangle)]
pub extern "C" fn kbd48_keyboard_key_at(keyboard: &mut KeyboardAt, place: u8, down: bool) -> i32
    ensures keyboard { keyboard.new.keyboard ≡ keyed place down keyboard.old.keyboard }
    ensures answer { result ≡ truth_of (nat_lt place 96) }
    ensures at { keyboard.new.at ≡ keyboard.old.at }
{
    match Place::numbered(place) {
        Some(key) => {
            keyboard.keyboard().edge(key, down);
            1
        }
        None => 0,
    }
}

/// One step of the processor with these levels on the wires. Answers the step's cycles, 1 or 2, or 0 if the processor is
/// stuck; then nothing has changed.
#[unsafe(no_mangle)]
pub extern "C" fn kbd48_keyboard_step_at(keyboard: &mut KeyboardAt, levels: u32) -> i32
    ensures keyboard { keyboard.new.keyboard ≡ with_chip (after (next_of (pins_at (lines_in levels)
        keyboard.old.keyboard.matrix keyboard.old.keyboard.chip.mcu.p1) keyboard.old.keyboard.chip) keyboard.old.keyboard.chip)
        keyboard.old.keyboard }
    ensures cycles { result ≡ pos (cycles_of (next_of (pins_at (lines_in levels)
        keyboard.old.keyboard.matrix keyboard.old.keyboard.chip.mcu.p1) keyboard.old.keyboard.chip)) }
    ensures place { keyboard.new.at ≡ keyboard.old.at }
{
    i32::from(keyboard.keyboard().step(lines_in(levels)))
}

/// The levels that the keyboard drives on the wires.
#[unsafe(no_mangle)]
pub extern "C" fn kbd48_keyboard_drive_at(keyboard: &mut KeyboardAt) -> i32
    ensures driven { result ≡ pos (levels_of (latch_of keyboard.old.keyboard.chip.mcu.p2)) }
    ensures unchanged { keyboard.new.keyboard ≡ keyboard.old.keyboard }
    ensures place { keyboard.new.at ≡ keyboard.old.at }
{
    levels_of(keyboard.keyboard().drives()) as i32
}

/// The lights.
#[unsafe(no_mangle)]
pub extern "C" fn kbd48_keyboard_lights_at(keyboard: &mut KeyboardAt) -> i32
    ensures lights { result ≡ pos (lights_of keyboard.old.keyboard.chip.mcu.p2) }
    ensures unchanged { keyboard.new.keyboard ≡ keyboard.old.keyboard }
    ensures place { keyboard.new.at ≡ keyboard.old.at }
{
    i32::from(keyboard.keyboard().lights())
}

/// For how many cycles, at most `most`, the keyboard by itself drives the levels and shows the lights of now, if no key moves
/// and the other side drives these levels all the while. They are those of whole steps: the next step can't be made, ends after
/// more than `most` cycles, or changes what is seen. The keyboard stays as it is.
#[unsafe(no_mangle)]
pub extern "C" fn kbd48_keyboard_rests_at(keyboard: &mut KeyboardAt, levels: u32, most: u32) -> u32
    ensures rests { RestsFor (lines_in levels) most keyboard.old.keyboard result }
    ensures within { result ≤ most }
    ensures unchanged { keyboard.new.keyboard ≡ keyboard.old.keyboard }
    ensures place { keyboard.new.at ≡ keyboard.old.at }
{
    keyboard.keyboard().rests(lines_in(levels), most)
}

/// Writes the keyboard's state but for the program.
#[unsafe(no_mangle)]
pub extern "C" fn kbd48_keyboard_save_at(keyboard: &mut KeyboardAt, saved: &mut SavedKeyboard)
    ensures chip { saved.new.chip ≡ saved_of keyboard.old.keyboard.chip }
    ensures keys { keys_in saved.new.columns ≡ keyboard.old.keyboard.matrix }
    ensures loaded { loaded saved.new.chip ≡ Some keyboard.old.keyboard.chip.mcu }
    ensures unchanged { keyboard.new.keyboard ≡ keyboard.old.keyboard }
    ensures place { keyboard.new.at ≡ keyboard.old.at }
{
    keyboard.keyboard().save(saved);
}

/// Goes to this state; the program stays. Answers 1, or 0 if no processor has that state; then nothing has changed.
#[unsafe(no_mangle)]
pub extern "C" fn kbd48_keyboard_load_at(keyboard: &mut KeyboardAt, saved: &SavedKeyboard) -> i32
    ensures keyboard { keyboard.new.keyboard
        ≡ gone_back (loaded saved.now.chip) (keys_in saved.now.columns) keyboard.old.keyboard }
    ensures answer { result ≡ truth_of (is_some (loaded saved.now.chip)) }
    ensures place { keyboard.new.at ≡ keyboard.old.at }
{
    i32::from(keyboard.keyboard().load(saved))
}
