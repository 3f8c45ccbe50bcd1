//! What is seen of an open keyboard, and its end.

ghost use Rattle.std.specs.Prelude.{◌≡◌, None};
ghost use Rattle.live_board.specs.Answers.{raises};
ghost use Rattle.kbd48_c.specs.Exports.{HasShownLights, HasShownWires, Through, held_status, shown_of};
ghost use Rattle.kbd48_c.specs.Looks.{wires_of};
ghost use Rattle.kbd48_c.specs.Statuses.{done};

use crate::handle::Handle;
use crate::status::{DONE, NOT_OPEN};
use std::alloc::Global;

/// Whether the interrupt line is up.
#[unsafe(no_mangle)]
pub extern "C" fn kbd48_interrupt(alloc: Global, handle: &mut Handle, up: &mut bool) -> i32
    ensures up { up.new ≡ shown_of (λ k. raises k.joint.outside.desk.port.core) handle.old.keyboard up.old }
    ensures unchanged { handle.new.keyboard ≡ handle.old.keyboard }
    ensures status { result ≡ held_status done handle.old.keyboard }
{
    match handle.take(alloc) {
        Some(keyboard) => {
            *up = keyboard.interrupt();
            *handle = Handle::holding(keyboard);
            DONE
        }
        None => NOT_OPEN,
    }
}

/// The lights: Scroll as bit 0, Num as bit 1, Caps as bit 2.
#[unsafe(no_mangle)]
pub extern "C" fn kbd48_lights(alloc: Global, handle: &mut Handle, lights: &mut u8) -> i32
    ensures lights { Through (HasShownLights lights.new) handle.old.keyboard result handle.new.keyboard }
    ensures shown { lights.new ≡ shown_of (λ k. k.joint.outside.shown) handle.old.keyboard lights.old }
    ensures none { handle.old.keyboard ≡ None → lights.new ≡ lights.old }
{
    match handle.take(alloc) {
        Some(keyboard) => {
            *lights = keyboard.lights();
            *handle = Handle::holding(keyboard);
            DONE
        }
        None => NOT_OPEN,
    }
}

/// The levels of the two wires after the last cycle: true is high.
#[unsafe(no_mangle)]
pub extern "C" fn kbd48_wires(
    alloc: Global,
    handle: &mut Handle,
    clock: &mut bool,
    dat: &mut bool,
) -> i32
    ensures wires { Through (HasShownWires clock.new dat.new) handle.old.keyboard result handle.new.keyboard }
    ensures clock { clock.new ≡ shown_of (λ k. (wires_of k).clk) handle.old.keyboard clock.old }
    ensures dat { dat.new ≡ shown_of (λ k. (wires_of k).dat) handle.old.keyboard dat.old }
    ensures none { handle.old.keyboard ≡ None → (clock.new ≡ clock.old) × (dat.new ≡ dat.old) }
{
    match handle.take(alloc) {
        Some(keyboard) => {
            let line = keyboard.wires();
            *clock = line.clk;
            *dat = line.dat;
            *handle = Handle::holding(keyboard);
            DONE
        }
        None => NOT_OPEN,
    }
}

/// How many cycles have passed since power-on.
#[unsafe(no_mangle)]
pub extern "C" fn kbd48_cycle(alloc: Global, handle: &mut Handle, cycle: &mut u64) -> i32
    ensures cycle { cycle.new ≡ shown_of (λ k. k.joint.cycle) handle.old.keyboard cycle.old }
    ensures unchanged { handle.new.keyboard ≡ handle.old.keyboard }
    ensures status { result ≡ held_status done handle.old.keyboard }
{
    match handle.take(alloc) {
        Some(keyboard) => {
            *cycle = keyboard.cycle();
            *handle = Handle::holding(keyboard);
            DONE
        }
        None => NOT_OPEN,
    }
}

/// Frees the keyboard, and leaves the handle empty.
#[unsafe(no_mangle)]
pub extern "C" fn kbd48_close(alloc: Global, handle: &mut Handle) -> i32
    ensures closed { handle.new.keyboard ≡ None }
    ensures status { result ≡ held_status done handle.old.keyboard }
{
    match handle.take(alloc) {
        Some(keyboard) => {
            drop(keyboard);
            DONE
        }
        None => NOT_OPEN,
    }
}
