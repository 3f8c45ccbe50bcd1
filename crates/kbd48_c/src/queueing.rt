//! A queue of edges, which C holds as a struct of its own: no handle, no memory, no pointer.

ghost use Rattle.std.specs.Prelude.{◌≡◌, ◌-◌, length};
ghost use Rattle.edge_queue.specs.Queue.{all_released, queue_of};
ghost use Rattle.kbd48_c.specs.Queueing.{push_status, queue_after, queued_status};
ghost use Rattle.kbd48_c.specs.Statuses.{done};

use crate::status::{DONE, FULL, NO_SUCH_PLACE, REPEATED};
use board_terms::{Place, STAMP_0};
use edge_queue::{EdgeQueue, NotQueued};

/// The stamp of a cycle; what comes before stamp 0 counts as then.
pub(crate) fn stamp_of(cycle: u64) -> u64
    ensures { result ≡ cycle - 4096 }
{
    if cycle < STAMP_0 { 0 } else { cycle - STAMP_0 }
}

/// The status of an edge that was pushed.
fn queued_status(answer: Result<(), NotQueued>) -> i32
    ensures { result ≡ queued_status answer }
{
    match answer {
        Ok(()) => DONE,
        Err(NotQueued::Repeated) => REPEATED,
        Err(NotQueued::Full) => FULL,
    }
}

/// The key at a place, 0 to 95, goes down or up at a cycle. The edge waits in the queue until the keyboard can see it.
#[unsafe(no_mangle)]
pub extern "C" fn kbd48_queue_key(queue: &mut EdgeQueue, cycle: u64, place: u8, down: bool) -> i32
    ensures status { result ≡ push_status cycle place down (queue_of queue.old) }
    ensures after { queue_of queue.new ≡ queue_after cycle place down (queue_of queue.old) }
{
    match Place::numbered(place) {
        Some(at) => queued_status(queue.push(stamp_of(cycle), at, down)),
        None => NO_SUCH_PLACE,
    }
}

/// Each key that is down goes up at a cycle, after all edges that wait.
#[unsafe(no_mangle)]
pub extern "C" fn kbd48_release_all(queue: &mut EdgeQueue, cycle: u64) -> i32
    ensures after { queue_of queue.new ≡ all_released (cycle - 4096) (queue_of queue.old) }
    ensures status { result ≡ done }
{
    queue.release_all(stamp_of(cycle));
    DONE
}

/// How many edges wait in the queue, at most 160.
#[unsafe(no_mangle)]
pub extern "C" fn kbd48_queued(queue: &mut EdgeQueue, count: &mut u8) -> i32
    ensures count { count.new ≡ length (queue_of queue.old).waiting }
    ensures unchanged { queue_of queue.new ≡ queue_of queue.old }
    ensures status { result ≡ done }
{
    *count = queue.waiting() as u8;
    DONE
}
