//! The run that stops for what C asks for.

ghost use Rattle.std.specs.Prelude.{◌≡◌, None};
ghost use Rattle.kbd48_c.specs.Exports.{Through};
ghost use Rattle.kbd48_c.specs.Stopping.{HasRunTo, mask_of, met_after, stop_status, stops_of};

use crate::going::{Spot, put_ran};
use crate::handle::Handle;
use crate::status::{DONE, NOT_OPEN, run_status};
use live_board::{Keyboard, Met, RunEnd, Stops};
use std::alloc::Global;

/// What a run is to stop for: 1 a rise of the line, 2 something said, 4 a wire that changed, 8 this place.
fn stops_of(mask: u8, at: u16) -> Stops
    ensures { result ≡ stops_of mask at }
{
    Stops {
        rise: mask >> 0 & 1 == 1,
        item: mask >> 1 & 1 == 1,
        wires: mask >> 2 & 1 == 1,
        counter: if mask >> 3 & 1 == 1 { Some(at) } else { None },
    }
}

/// What a step did, in the same numbers.
fn mask_of(met: Met) -> u8
    ensures { result ≡ mask_of met }
{
    u8::from(met.rise)
        + 2 * u8::from(met.item)
        + 4 * u8::from(met.wires)
        + 8 * u8::from(met.counter)
}

/// The status of such a run.
fn stop_status(end: RunEnd) -> i32
    ensures { result ≡ stop_status end }
{
    match end {
        RunEnd::Met(_) => DONE,
        other => run_status(other),
    }
}

/// What a step did that ended it, if one did.
fn met_after(end: RunEnd) -> u8
    ensures { result ≡ met_after end }
{
    match end {
        RunEnd::Met(what) => mask_of(what),
        _ => 0,
    }
}

/// Goes on until a step does one of these, or a limit is reached.
fn go_to(
    keyboard: &mut Keyboard,
    stops: &Stops,
    cycles: u64,
    steps: u64,
    met: &mut u8,
    passed: &mut u64,
    spot: &mut Spot,
) -> i32
    ensures gone { HasRunTo stops.now cycles steps met.new passed.new spot.old spot.new keyboard.old result keyboard.new }
{
    let ran = keyboard.run_to(stops, cycles, Some(steps));
    put_ran(ran, passed, spot);
    *met = met_after(ran.end);
    stop_status(ran.end)
}

/// Makes steps until one of them does what the mask asks for, but for so many cycles and steps at most. Of an empty
/// handle no cycle passes.
#[unsafe(no_mangle)]
pub extern "C" fn kbd48_run_to(
    alloc: Global,
    handle: &mut Handle,
    mask: u8,
    at: u16,
    cycles: u64,
    steps: u64,
    met: &mut u8,
    passed: &mut u64,
    spot: &mut Spot,
) -> i32
    ensures gone { Through (HasRunTo (stops_of mask at) cycles steps met.new passed.new spot.old spot.new)
        handle.old.keyboard result handle.new.keyboard }
    ensures none { handle.old.keyboard ≡ None → (met.new ≡ 0) × (passed.new ≡ 0) × (spot.new ≡ spot.old) }
{
    match handle.take(alloc) {
        Some(mut keyboard) => {
            let stops = stops_of(mask, at);
            let status = go_to(&mut *keyboard, &stops, cycles, steps, met, passed, spot);
            *handle = Handle::holding(keyboard);
            status
        }
        None => {
            *met = 0;
            *passed = 0;
            NOT_OPEN
        }
    }
}
