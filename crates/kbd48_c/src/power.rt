//! A keyboard that is switched off and on again.

ghost use Rattle.kbd48_c.specs.Exports.{Through};
ghost use Rattle.kbd48_c.specs.Opening.{HasPoweredOn};

use crate::handle::Handle;
use crate::status::{DONE, NOT_OPEN};
use live_board::Keyboard;
use std::alloc::Global;

/// The keyboard is switched off and on again, with this byte in data memory, A and T at power-on.
fn power_on(keyboard: &mut Keyboard, fill: u8) -> i32
    ensures powered_on { HasPoweredOn fill keyboard.old result keyboard.new }
{
    keyboard.power_on(fill);
    DONE
}

/// Switches the keyboard off and on again, with the program that it has, and with this byte in data memory, A and T at
/// power-on. No memory is taken.
#[unsafe(no_mangle)]
pub extern "C" fn kbd48_power_on(alloc: Global, handle: &mut Handle, fill: u8) -> i32
    ensures powered_on { Through (HasPoweredOn fill) handle.old.keyboard result handle.new.keyboard }
{
    match handle.take(alloc) {
        Some(mut keyboard) => {
            let status = power_on(&mut *keyboard, fill);
            *handle = Handle::holding(keyboard);
            status
        }
        None => NOT_OPEN,
    }
}
