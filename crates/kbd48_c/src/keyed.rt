//! A run with a queue: each edge is handed over when it is due.

ghost use Rattle.std.specs.Prelude.{◌≡◌, ◌<◌, ◌^◌, None};
ghost use Rattle.edge_queue.specs.Queue.{queue_of};
ghost use Rattle.kbd48_c.specs.Exports.{Through};
ghost use Rattle.kbd48_c.specs.Queueing.{HandsOver, HasGoneKeyed, debounces, keyed_status, may_take, room_of, wait_for};

use crate::calls::press;
use crate::going::{Spot, put_ran};
use crate::handle::Handle;
use crate::queueing::stamp_of;
use crate::status::{DONE, KEY_DUE, NOT_OPEN, run_status};
use board_terms::STAMP_0;
use edge_queue::EdgeQueue;
use live_board::{Keyboard, LAST_CYCLE, RunEnd};
use std::alloc::Global;

/// Where a layout's image says whether keys are debounced.
const DEBOUNCE: u16 = 0x3f2;

/// How many edges can wait for a step.
const EDGES: usize = 4;

/// Whether an edge can be handed over now.
fn may_take(keyboard: &Keyboard) -> bool
    ensures may { result ≡ may_take keyboard.now }
{
    let cycle = keyboard.cycle();
    STAMP_0 <= cycle && cycle < LAST_CYCLE && keyboard.edges_waiting() < EDGES
}

/// Whether the keyboard's program says that keys are debounced, as a layout's image does.
fn debounces(keyboard: &Keyboard) -> bool
    ensures { result ≡ debounces keyboard.now }
{
    keyboard.program_byte(DEBOUNCE) != 0
}

/// Hands over the edge that is due, if one is.
fn hand_over(keyboard: &mut Keyboard, queue: &mut EdgeQueue)
    ensures hands { HandsOver (queue_of queue.old) keyboard.old (queue_of queue.new) keyboard.new }
{
    if !may_take(keyboard) {
        return;
    }
    let now = stamp_of(keyboard.cycle());
    let debounce = debounces(keyboard);
    if let Some(edge) = queue.take_due(now, debounce) {
        let _ = press(keyboard, edge.place, edge.down);
    }
}

/// How long it is from one stamp to another; a cycle if that has passed.
fn wait_for(due: u64, now: u64) -> u64
    ensures { result ≡ wait_for due now }
{
    if now < due { due - now } else { 1 }
}

/// How many of these cycles pass until the next edge is due.
fn room(cycles: u64, queue: &EdgeQueue, keyboard: &Keyboard) -> u64
    ensures room { result ≡ room_of cycles (queue_of queue.now) keyboard.now }
{
    match queue.due() {
        None => cycles,
        Some(due) => {
            let wait = wait_for(due, stamp_of(keyboard.cycle()));
            if wait < cycles { wait } else { cycles }
        }
    }
}

/// The status of such a run.
fn keyed_status(cycles: u64, passed: u64, end: RunEnd) -> i32
    ensures { result ≡ keyed_status cycles passed end }
{
    match end {
        RunEnd::Passed => { if passed < cycles { KEY_DUE } else { DONE } }
        other => run_status(other),
    }
}

/// Hands over the edge that is due, and goes on until the next one is, or until so many cycles have passed.
fn go_keyed(
    keyboard: &mut Keyboard,
    queue: &mut EdgeQueue,
    cycles: u64,
    watched: bool,
    passed: &mut u64,
    spot: &mut Spot,
) -> i32
    ensures gone { HasGoneKeyed cycles watched passed.new spot.old spot.new (queue_of queue.old) (queue_of queue.new)
        keyboard.old result keyboard.new }
{
    hand_over(keyboard, queue);
    let room = room(cycles, queue, keyboard);
    let ran = keyboard.run(room, watched);
    put_ran(ran, passed, spot);
    keyed_status(cycles, ran.cycles, ran.end)
}

/// Hands over the edge of the queue that is due, and then makes steps until the next one is, which it says, or until so
/// many cycles have passed, or, if it is watched, until the interrupt line rises. Of an empty handle no cycle passes.
#[unsafe(no_mangle)]
pub extern "C" fn kbd48_run_keys(
    alloc: Global,
    handle: &mut Handle,
    queue: &mut EdgeQueue,
    cycles: u64,
    watched: bool,
    passed: &mut u64,
    spot: &mut Spot,
) -> i32
    ensures gone { Through (HasGoneKeyed cycles watched passed.new spot.old spot.new (queue_of queue.old) (queue_of queue.new))
        handle.old.keyboard result handle.new.keyboard }
    ensures none { handle.old.keyboard ≡ None
        → (passed.new ≡ 0) × (spot.new ≡ spot.old) × (queue_of queue.new ≡ queue_of queue.old) }
{
    match handle.take(alloc) {
        Some(mut keyboard) => {
            let status = go_keyed(&mut *keyboard, queue, cycles, watched, passed, spot);
            *handle = Handle::holding(keyboard);
            status
        }
        None => {
            *passed = 0;
            NOT_OPEN
        }
    }
}
