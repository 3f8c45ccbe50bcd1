//! Noise on the wires, and which side pulls them.

ghost use Rattle.std.specs.Prelude.{◌≡◌};
ghost use Rattle.live_board.specs.Sides.{sides_of};
ghost use Rattle.kbd48_c.specs.Exports.{Through, held_status, shown_of};
ghost use Rattle.kbd48_c.specs.Noise.{HasFlipped, pulled_of};
ghost use Rattle.kbd48_c.specs.Statuses.{done};

use crate::calls::status_of;
use crate::handle::Handle;
use crate::status::{DONE, NO_SUCH_BIT, NOT_OPEN};
use board_terms::Lines;
use live_board::Keyboard;
use std::alloc::Global;

/// A bit of the keyboard's next frame is turned round: a data bit, 1 to 8, or the parity, 9.
fn flip_bit(keyboard: &mut Keyboard, bit: u8) -> i32
    ensures flipped { HasFlipped bit keyboard.old result keyboard.new }
{
    if bit < 1 || bit > 9 {
        return NO_SUCH_BIT;
    }
    status_of(keyboard.flip(bit))
}

/// The wires that a side pulls: 1 the clock, 2 data.
fn pulled(line: Lines) -> u8
    ensures { result ≡ pulled_of line }
{
    let clock = if line.clk { 0 } else { 1 };
    let dat = if line.dat { 0 } else { 2 };
    clock + dat
}

/// Noise turns round a bit of the next frame that the keyboard begins, 1 to 9, in one joint step.
#[unsafe(no_mangle)]
pub extern "C" fn kbd48_flip(alloc: Global, handle: &mut Handle, bit: u8) -> i32
    ensures flipped { Through (HasFlipped bit) handle.old.keyboard result handle.new.keyboard }
{
    match handle.take(alloc) {
        Some(mut keyboard) => {
            let status = flip_bit(&mut *keyboard, bit);
            *handle = Handle::holding(keyboard);
            status
        }
        None => NOT_OPEN,
    }
}

/// The wires that the keyboard pulls, and those that the controller pulls, both at this moment: 1 the clock, 2 data.
#[unsafe(no_mangle)]
pub extern "C" fn kbd48_pulls(
    alloc: Global,
    handle: &mut Handle,
    keyboard: &mut u8,
    controller: &mut u8,
) -> i32
    ensures keyboard { keyboard.new ≡ shown_of (λ k. pulled_of (sides_of k.joint).keyboard) handle.old.keyboard keyboard.old }
    ensures controller { controller.new
        ≡ shown_of (λ k. pulled_of (sides_of k.joint).controller) handle.old.keyboard controller.old }
    ensures unchanged { handle.new.keyboard ≡ handle.old.keyboard }
    ensures status { result ≡ held_status done handle.old.keyboard }
{
    match handle.take(alloc) {
        Some(held) => {
            let sides = held.sides();
            *keyboard = pulled(sides.keyboard);
            *controller = pulled(sides.controller);
            *handle = Handle::holding(held);
            DONE
        }
        None => NOT_OPEN,
    }
}
