//! What comes out of the queue, and when.

ghost use Rattle.std.specs.Prelude.{◌≡◌, ◌<◌, ◌^◌};
ghost use Rattle.edge_queue.specs.Queue.{after_taken, due_at, due_of, queue_of, taken, time_of, without_first};

use crate::queue::{EdgeQueue, Pushed};

/// How long a press takes until the next edge, in cycles.
const PRESS: u64 = 2240;

/// How long a release takes, and with a debounce each edge.
const RELEASE: u64 = 4480;

/// How long an edge takes until the next, on a keyboard with a debounce or without.
fn time_of(debounce: bool, down: bool) -> u64
    ensures time { result ≡ time_of debounce down }
    ensures range { result < 4481 }
{
    if down && !debounce { PRESS } else { RELEASE }
}

/// The later of two stamps.
fn later(stamp: u64, ready: u64) -> u64
    ensures { result ≡ due_at ready stamp }
{
    if stamp < ready { ready } else { stamp }
}

impl EdgeQueue {
    /// When the next edge is due; None exactly if none waits.
    pub fn due(&self) -> Option<u64>
        ensures due { result ≡ due_of (queue_of self.now) }
    {
        if self.count == 0 {
            None
        } else {
            Some(later(self.edges[0].stamp, self.ready))
        }
    }

    /// The first edge waits no longer: it is handed over at this stamp.
    fn remove_first(&mut self, now: u64, debounce: bool)
        requires some { 0 < self.old.count }
        requires near { now < 2 ^ 63 }
        ensures after { queue_of self.new ≡ without_first debounce now (queue_of self.old).waiting (queue_of self.old) }
    {
        let down = self.edges[0].down;
        let left = self.waiting() - 1;
        self.edges.rotate_left(1);
        self.count = left as u8;
        self.ready = now + time_of(debounce, down);
    }

    /// The next edge, if it is due at this stamp, for a keyboard with a debounce or without. It waits no longer.
    pub fn take_due(&mut self, now: u64, debounce: bool) -> Option<Pushed>
        requires near { now < 2 ^ 63 }
        ensures taken { result ≡ taken now (queue_of self.old) }
        ensures after { queue_of self.new ≡ after_taken debounce now (queue_of self.old) }
    {
        if self.count == 0 || now < later(self.edges[0].stamp, self.ready) {
            return None;
        }
        let first = Pushed {
            stamp: now,
            place: self.edges[0].place,
            down: self.edges[0].down,
        };
        self.remove_first(now, debounce);
        Some(first)
    }
}
