//! The call that goes on for some time.

ghost use Rattle.std.specs.Prelude.{◌≡◌, None};
ghost use Rattle.kbd48_c.specs.Exports.{HasRunFor, Through};
ghost use Rattle.kbd48_c.specs.Spots.{spot_after};

use crate::handle::Handle;
use crate::status::{NOT_OPEN, run_status};
use live_board::{Keyboard, Ran, RunEnd};
use std::alloc::Global;

/// Where a processor is stuck: its program counter, 12 bits, and the byte there.
#[repr(C)]
#[derive(Drop)]
pub struct Spot {
    pub counter: u16,
    pub byte: u8,
}

/// How many cycles passed, and where the processor is stuck, if it is.
pub(crate) fn put_ran(ran: Ran, passed: &mut u64, spot: &mut Spot)
    ensures passed { passed.new ≡ ran.cycles }
    ensures place { spot.new ≡ spot_after ran.end spot.old }
{
    *passed = ran.cycles;
    if let RunEnd::Stuck(stuck) = ran.end {
        spot.counter = stuck.pc;
        spot.byte = stuck.byte;
    }
}

/// Goes on until so many cycles have passed, or, if it is watched, until the interrupt line rises.
fn go(keyboard: &mut Keyboard, cycles: u64, watched: bool, passed: &mut u64, spot: &mut Spot) -> i32
    ensures gone { HasRunFor cycles watched passed.new spot.old spot.new keyboard.old result keyboard.new }
{
    let ran = keyboard.run(cycles, watched);
    put_ran(ran, passed, spot);
    run_status(ran.end)
}

/// Makes steps until so many cycles have passed, or, if it is watched, until the interrupt line rises. Of an empty
/// handle no cycle passes.
#[unsafe(no_mangle)]
pub extern "C" fn kbd48_run(
    alloc: Global,
    handle: &mut Handle,
    cycles: u64,
    watched: bool,
    passed: &mut u64,
    spot: &mut Spot,
) -> i32
    ensures gone { Through (HasRunFor cycles watched passed.new spot.old spot.new)
        handle.old.keyboard result handle.new.keyboard }
    ensures none { handle.old.keyboard ≡ None → (passed.new ≡ 0) × (spot.new ≡ spot.old) }
{
    match handle.take(alloc) {
        Some(mut keyboard) => {
            let status = go(&mut *keyboard, cycles, watched, passed, spot);
            *handle = Handle::holding(keyboard);
            status
        }
        None => {
            *passed = 0;
            NOT_OPEN
        }
    }
}
