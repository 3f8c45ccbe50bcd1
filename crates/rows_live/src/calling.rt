//! Calls of a keyboard that runs as one goes that take more than a line. Each returns whether it did what it is to do.

use crate::rows::{NOTHING, NOTHING_MET, SECOND};
use fw_kernel::KERNEL;
use int09::Bios;
use live_board::{Keyboard, Met, Next, RunEnd, SAVED, Stops, Unloaded, What};
use mcs48_isa::Image;
use std::alloc::{AllocError, Global};

/// A keyboard with the kernel, at stamp 0 or ready.
pub(crate) fn opened(alloc: Global, ready: bool) -> Result<Keyboard, AllocError> {
    let image = Image { bytes: KERNEL };
    let bios = Bios::new(alloc)?;
    if ready {
        return Ok(Keyboard::open_ready(&image, bios));
    }
    Ok(Keyboard::open(&image, bios))
}

/// A keyboard with a program that sticks at its third byte.
pub(crate) fn sticking(alloc: Global) -> Result<Keyboard, AllocError> {
    let mut bytes = [0; 2048];
    bytes[2] = 0x01;
    Ok(Keyboard::open(&Image { bytes }, Bios::new(alloc)?))
}

/// A run that isn't watched passes, after at least so many cycles and at most so many.
pub(crate) fn passes(keyboard: &mut Keyboard, cycles: u64, least: u64, most: u64) -> bool {
    let ran = keyboard.run(cycles, false);
    ran.end == RunEnd::Passed && least <= ran.cycles && ran.cycles <= most
}

/// A watched run for a second ends with a rise, after at least so many cycles and at most so many.
pub(crate) fn rises(keyboard: &mut Keyboard, least: u64, most: u64) -> bool {
    let ran = keyboard.run(SECOND, true);
    let met = Met {
        rise: true,
        ..NOTHING_MET
    };
    ran.end == RunEnd::Met(met) && least <= ran.cycles && ran.cycles <= most
}

/// A run of so many steps ends after at least so many cycles and at most so many.
pub(crate) fn steps(keyboard: &mut Keyboard, steps: u64, least: u64, most: u64) -> bool {
    let ran = keyboard.run_to(&NOTHING, SECOND, Some(steps));
    ran.end == RunEnd::Passed && least <= ran.cycles && ran.cycles <= most
}

/// A run comes back to where the processor is.
pub(crate) fn comes_back(keyboard: &mut Keyboard) -> bool {
    let counter = Some(keyboard.place().pc);
    let stops = Stops { counter, ..NOTHING };
    let met = Met {
        counter: true,
        ..NOTHING_MET
    };
    let end = keyboard.run_to(&stops, SECOND, None).end;
    end == RunEnd::Met(met) && Some(keyboard.place().pc) == counter
}

/// After looks no cycle has passed, the registers are the same, and the interrupt line is up.
pub(crate) fn looks(keyboard: &Keyboard) -> bool {
    let cycle = keyboard.cycle();
    let registers = keyboard.registers();
    let seen = keyboard.processor().ram.len() == 128 && keyboard.place().pc < 2048;
    let same = keyboard.registers() == registers && keyboard.cycle() == cycle;
    seen && same && keyboard.interrupt()
}

/// This is handed out next.
pub(crate) fn hears(keyboard: &mut Keyboard, what: What) -> bool {
    match keyboard.hand_out() {
        Next::Said(it) => it.what == what,
        _ => false,
    }
}

/// So many items are handed out.
pub(crate) fn items(keyboard: &mut Keyboard, count: u8) -> bool {
    for _ in 0..count {
        if !matches!(keyboard.hand_out(), Next::Said(_)) {
            return false;
        }
    }
    true
}

/// The host reads the status so many times.
pub(crate) fn statuses(keyboard: &mut Keyboard, count: u8) -> bool {
    for _ in 0..count {
        if keyboard.status().is_err() {
            return false;
        }
    }
    true
}

/// Two keyboards go on alike: by a watched run, and a read of port 60h.
pub(crate) fn alike(one: &mut Keyboard, two: &mut Keyboard, cycles: u64) -> bool {
    let ran = one.run(cycles, true) == two.run(cycles, true);
    let read = one.read60() == two.read60();
    ran && read
}

/// What was loaded is as it was saved, and goes on as the keyboard does.
fn goes_on(loaded: &mut Keyboard, keyboard: &mut Keyboard, bytes: &[u8]) -> bool {
    let same = loaded.save().as_slice() == bytes;
    let waits = loaded.edges_waiting() == keyboard.edges_waiting();
    let alike = alike(loaded, keyboard, 97);
    same && waits && alike && loaded.save().as_slice() == keyboard.save().as_slice()
}

/// A saved keyboard is loaded as it was, and goes on as the keyboard does.
fn load(alloc: Global, keyboard: &mut Keyboard) -> bool {
    let bytes = keyboard.save();
    match Keyboard::load(alloc, bytes.as_slice()) {
        Ok(mut loaded) => bytes.len() == SAVED && goes_on(&mut loaded, keyboard, bytes.as_slice()),
        Err(_) => false,
    }
}

/// The same, so many times.
pub(crate) fn loads(alloc: Global, keyboard: &mut Keyboard, count: u8) -> bool {
    for _ in 0..count {
        if !load(alloc, keyboard) {
            return false;
        }
    }
    true
}

/// These bytes are refused, and this is why.
fn refused(alloc: Global, bytes: &[u8], why: Unloaded) -> bool {
    match Keyboard::load(alloc, bytes) {
        Ok(_) => false,
        Err(fault) => fault == why,
    }
}

/// A saved keyboard without its first byte is refused for its length.
pub(crate) fn short_refused(alloc: Global, keyboard: &Keyboard) -> bool {
    let saved = keyboard.save();
    refused(alloc, &saved.as_slice()[1..], Unloaded::Length)
}

/// A saved keyboard with another byte at this place is refused, and this is why.
pub(crate) fn change_refused(
    alloc: Global,
    keyboard: &Keyboard,
    place: usize,
    byte: u8,
    why: Unloaded,
) -> bool {
    let mut saved = keyboard.save();
    match saved.as_mut_slice().get_mut(place) {
        Some(there) => *there = byte,
        None => return false,
    }
    refused(alloc, saved.as_slice(), why)
}
