//! What C calls of a queue of edges.

ghost use Rattle.std.specs.Prelude.{◌≡◌, ◌-◌, min, nat_lt, pos, is_some};
ghost use Rattle.edge_queue.specs.Queue.{all_released, answer_of, due_of, edge_at, queue_of};
ghost use Rattle.kbd48_halves.specs.Queueing.{debounces, handed, left, push_answer, pushed_at, queued, wait_of, with_edge};
ghost use Rattle.kbd48_halves.specs.Words.{keyed, truth_of};

use crate::keyboard_at::KeyboardAt;
use board_terms::Place;
use edge_queue::{EdgeQueue, NotQueued};
use kbd_half::KbdHalf;

/// Where a layout's image says whether keys are debounced.
const DEBOUNCE: usize = 0x3f2;

/// From this cycle on no edge is handed over.
const LAST: u64 = 1 << 63;

/// What a push answers for one of the 96 places.
fn queued(answer: Result<(), NotQueued>) -> i32
    ensures { result ≡ pos (queued answer) }
{
    match answer {
        Ok(()) => 1,
        Err(NotQueued::Repeated) => 2,
        Err(NotQueued::Full) => 3,
    }
}

/// The key at a place, 0 to 95, goes down or up at a cycle, after all edges that wait. Answers 1, or 0 for any other place,
/// 2 if the key is so already, and 3 if it goes down and 64 edges wait; then the queue is as it was.
#[unsafe(no_mangle)]
pub extern "C" fn kbd48_queue_push(queue: &mut EdgeQueue, now: u64, place: u8, down: bool) -> i32
    ensures answer { result ≡ pos (push_answer now place down (queue_of queue.old)) }
    ensures after { queue_of queue.new ≡ pushed_at now place down (queue_of queue.old) }
{
    match Place::numbered(place) {
        Some(key) => queued(queue.push(now, key, down)),
        None => 0,
    }
}

/// Each key that is down goes up at a cycle, after all edges that wait.
#[unsafe(no_mangle)]
pub extern "C" fn kbd48_queue_release_all(queue: &mut EdgeQueue, now: u64)
    ensures after { queue_of queue.new ≡ all_released now (queue_of queue.old) }
{
    queue.release_all(now);
}

/// In how many cycles from this one on the next edge is due, at most `most`.
#[unsafe(no_mangle)]
pub extern "C" fn kbd48_queue_wait(queue: &mut EdgeQueue, now: u64, most: u32) -> u32
    ensures wait { result ≡ wait_of most now (due_of (queue_of queue.old)) }
    ensures unchanged { queue_of queue.new ≡ queue_of queue.old }
{
    match queue.due() {
        Some(due) => due.saturating_sub(now).min(u64::from(most)) as u32,
        None => most,
    }
}

/// Whether the keyboard's program says that keys are debounced, as a layout's image does.
fn debounces(keyboard: &KbdHalf) -> bool
    ensures { result ≡ debounces keyboard.now }
{
    keyboard.chip.image.bytes[DEBOUNCE] != 0
}

/// The key at a place goes down or up, if there is such a place.
fn press(keyboard: &mut KbdHalf, place: u8, down: bool)
    ensures { keyboard.new ≡ keyed place down keyboard.old }
{
    if let Some(key) = Place::numbered(place) {
        keyboard.edge(key, down);
    }
}

/// Hands the edge that is due in this cycle over to the keyboard. Answers whether one was.
fn hand_over(queue: &mut EdgeQueue, keyboard: &mut KbdHalf, now: u64) -> bool
    ensures done { result ≡ is_some (handed now (queue_of queue.old)) }
    ensures queue { queue_of queue.new ≡ left now (debounces keyboard.old) (queue_of queue.old) }
    ensures keyboard { keyboard.new ≡ with_edge (handed now (queue_of queue.old)) keyboard.old }
{
    if now >= LAST {
        return false;
    }
    let debounce = debounces(keyboard);
    match queue.take_due(now, debounce) {
        Some(edge) => {
            press(keyboard, edge.place, edge.down);
            true
        }
        None => false,
    }
}

/// Hands the edge of a queue that is due in this cycle over to the keyboard. Answers 1, or 0 if none is due; then nothing has
/// changed.
#[unsafe(no_mangle)]
pub extern "C" fn kbd48_keyboard_take_at(
    keyboard: &mut KeyboardAt,
    queue: &mut EdgeQueue,
    now: u64,
) -> i32
    ensures answer { result ≡ truth_of (is_some (handed now (queue_of queue.old))) }
    ensures queue { queue_of queue.new ≡ left now (debounces keyboard.old.keyboard) (queue_of queue.old) }
    ensures keyboard { keyboard.new.keyboard ≡ with_edge (handed now (queue_of queue.old)) keyboard.old.keyboard }
    ensures place { keyboard.new.at ≡ keyboard.old.at }
{
    i32::from(hand_over(queue, keyboard.keyboard(), now))
}
