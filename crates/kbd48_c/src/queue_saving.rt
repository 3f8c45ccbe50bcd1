//! A queue of edges as bytes in a buffer of the caller's, and back: no handle, no memory.

ghost use Rattle.std.specs.Prelude.{◌≡◌, ◌≤◌, ◌<◌, length};
ghost use Rattle.edge_queue.specs.Queue.{queue_of};
ghost use Rattle.kbd48_c.specs.QueueSaving.{HasFilledKeys, HasLoadedKeys, no_queue_status};
ghost use Rattle.kbd48_c.specs.Saving.{bad_size};

use crate::saving::put;
use crate::status::{BAD_SIZE, BAD_STATE, DONE, NOT_SAVED, OTHER_VERSION};
use edge_queue::EdgeQueue;
use queue_bytes::{NoQueue, SAVED_QUEUE, load, save};

/// The status of bytes that mean no queue.
fn no_queue_status(fault: NoQueue) -> i32
    ensures { result ≡ no_queue_status fault }
{
    match fault {
        NoQueue::Length => BAD_SIZE,
        NoQueue::Format => NOT_SAVED,
        NoQueue::Version => OTHER_VERSION,
        NoQueue::Count => BAD_STATE,
        NoQueue::Place => BAD_STATE,
        NoQueue::Way => BAD_STATE,
    }
}

/// Writes the queue's 1,629 bytes at the beginning of the buffer. A shorter buffer stays as it is.
#[unsafe(no_mangle)]
pub extern "C" fn kbd48_save_keys(queue: &mut EdgeQueue, buffer: &mut [u8]) -> i32
    ensures filled { 1629 ≤ length buffer.old → HasFilledKeys (queue_of queue.old) buffer.old result buffer.new }
    ensures short { length buffer.old < 1629 → (result ≡ bad_size) × (buffer.new ≡ buffer.old) }
    ensures unchanged { queue.new ≡ queue.old }
{
    if buffer.len() < SAVED_QUEUE {
        return BAD_SIZE;
    }
    put(save(queue).as_slice(), buffer);
    DONE
}

/// Puts the queue that these bytes mean in the place of the one that was there. If they mean none, the queue is as it was.
#[unsafe(no_mangle)]
pub extern "C" fn kbd48_load_keys(queue: &mut EdgeQueue, bytes: &[u8]) -> i32
    ensures loaded { HasLoadedKeys bytes.now queue.old result queue.new }
{
    match load(bytes) {
        Ok(loaded) => {
            *queue = loaded;
            DONE
        }
        Err(fault) => no_queue_status(fault),
    }
}
