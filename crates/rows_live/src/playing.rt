//! Plays the rows of a worked example of a keyboard that runs as one goes.

use crate::calling::{
    alike, change_refused, comes_back, hears, items, loads, looks, opened, passes, rises,
    short_refused, statuses, steps, sticking,
};
use crate::rows::{Row, SECOND};
use board_terms::Place;
use live_board::{Keyboard, Next};
use std::alloc::{AllocError, Global};
use std::process::Abort;

/// The keyboard and the other one.
#[derive(Drop)]
struct Pair {
    this: Keyboard,
    other: Keyboard,
}

/// A row in which a keyboard is opened, or any other row. Returns whether what the row says is so.
fn play_row(alloc: Global, pair: &mut Pair, row: Row) -> Result<bool, AllocError> {
    match row {
        Row::Ready => pair.this = opened(alloc, true)?,
        Row::Sticks => pair.this = sticking(alloc)?,
        Row::Copies => pair.other = pair.this.copied(alloc)?,
        _ => return Ok(play_both(alloc, pair, row)),
    }
    Ok(true)
}

/// A row in which both keyboards are used, or this one is saved or called.
fn play_both(alloc: Global, pair: &mut Pair, row: Row) -> bool {
    match row {
        Row::Swap => {
            std::mem::swap(&mut pair.this, &mut pair.other);
            true
        }
        Row::Together => pair.this.cycle() == pair.other.cycle(),
        Row::Alike(cycles) => alike(&mut pair.this, &mut pair.other, cycles),
        Row::Loads(count) => loads(alloc, &mut pair.this, count),
        Row::Short => short_refused(alloc, &pair.this),
        Row::Refuses(place, byte, why) => change_refused(alloc, &pair.this, place, byte, why),
        _ => play_run(&mut pair.this, row),
    }
}

/// A row in which the keyboard runs, or is called.
fn play_run(keyboard: &mut Keyboard, row: Row) -> bool {
    match row {
        Row::Run(cycles, watched, end) => keyboard.run(cycles, watched).end == end,
        Row::Passes(cycles, least, most) => passes(keyboard, cycles, least, most),
        Row::Rises => rises(keyboard, 1, SECOND),
        Row::RisesIn(least, most) => rises(keyboard, least, most),
        Row::RunTo(stops, end) => keyboard.run_to(&stops, SECOND, None).end == end,
        Row::Steps(count, least, most) => steps(keyboard, count, least, most),
        Row::ComesBack => comes_back(keyboard),
        _ => play_call(keyboard, row),
    }
}

/// A row in which the keyboard is called, or hands something out.
fn play_call(keyboard: &mut Keyboard, row: Row) -> bool {
    match row {
        Row::Write(port, byte) => keyboard.write(port, byte).is_ok(),
        Row::NoWrite(port, byte, why) => keyboard.write(port, byte) == Err(why),
        Row::Read(byte) => keyboard.read60() == Ok(byte),
        Row::NoRead(why) => keyboard.read60() == Err(why),
        Row::Status(byte) => keyboard.status() == Ok(byte),
        Row::Statuses(count) => statuses(keyboard, count),
        Row::Key(down) => keyboard.key(Place::default(), down).is_ok(),
        Row::NoKey(down, why) => keyboard.key(Place::default(), down) == Err(why),
        Row::Flip(bit) => keyboard.flip(bit).is_ok(),
        Row::Hears(what) => hears(keyboard, what),
        Row::Items(count) => items(keyboard, count),
        Row::Lost(count) => keyboard.hand_out() == Next::Lost(count),
        Row::Quiet => keyboard.hand_out() == Next::Nothing,
        _ => play_look(keyboard, row),
    }
}

/// A row in which the keyboard is looked at.
fn play_look(keyboard: &Keyboard, row: Row) -> bool {
    match row {
        Row::Cycle(least, most) => least <= keyboard.cycle() && keyboard.cycle() <= most,
        Row::Interrupt(up) => keyboard.interrupt() == up,
        Row::Rose(count) => keyboard.rises() == count,
        Row::Lights(lights) => keyboard.lights() == lights,
        Row::Shows(registers) => keyboard.registers() == registers,
        Row::Looks => looks(keyboard),
        Row::Program(place, byte) => place < 2048 && keyboard.program_byte(place) == byte,
        Row::Column(column, rows) => keyboard.rows(column) == rows,
        Row::Waiting(edges, words) => {
            keyboard.edges_waiting() == edges && keyboard.words_waiting() == words
        }
        Row::Drives(clock, data) => {
            let driven = keyboard.sides().controller;
            driven.clk == clock && driven.dat == data
        }
        _ => false,
    }
}

/// Plays the rows of an example, from two keyboards at stamp 0 on.
pub(crate) fn play(rt: &impl Abort, alloc: Global, rows: &[Row]) -> Result<(), AllocError> {
    let mut pair = Pair {
        this: opened(alloc, false)?,
        other: opened(alloc, false)?,
    };
    for (at, row) in rows.iter().enumerate() {
        let holds = play_row(alloc, &mut pair, *row)?;
        assert!(rt; holds, "row {at}");
    }
    Ok(())
}
