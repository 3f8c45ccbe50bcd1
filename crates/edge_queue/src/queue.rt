//! The queue, and what goes into it.

ghost use Rattle.std.specs.Prelude.{◌≡◌, ◌≤◌, ◌<◌, length};
ghost use Rattle.edge_queue.specs.Queue.{all_released, answer_of, edge_at, empty, is_down, is_full, is_repeated, pushed, queue_of};

use crate::refusal::NotQueued;
use board_terms::Place;

/// How many edges can wait when a key goes down.
const PRESSES: usize = 64;

/// How many edges can wait: a release of each of the 96 keys more.
const EDGES: usize = 160;

/// How many places the matrix has.
const PLACES: u8 = 96;

/// An edge as it was pushed: the key at this place, 0 to 95, goes down, or up, at this stamp, in cycles from stamp 0 on.
#[repr(C)]
#[derive(Clone, Copy, Debug, PartialEq, Eq, Default, Drop)]
pub struct Pushed {
    pub stamp: u64,
    pub place: u8,
    pub down: bool,
}

/// A queue. Its first `count` edges wait. All bytes 0 are an empty queue, and no number in it makes a call go wrong.
#[repr(C)]
#[derive(Drop)]
pub struct EdgeQueue {
    /// The stamp from which on the next edge may be handed over.
    pub ready: u64,
    /// The edges, in the order in which they were pushed.
    pub edges: [Pushed; 160],
    /// Whether the key at each place is down after all of them.
    pub down: [bool; 96],
    /// How many wait.
    pub count: u8,
}

impl EdgeQueue {
    /// A queue in which no edge waits, with all keys up.
    pub fn new() -> EdgeQueue
        ensures empty { queue_of result ≡ empty }
    {
        let none = Pushed {
            stamp: 0,
            place: 0,
            down: false,
        };
        EdgeQueue {
            ready: 0,
            edges: [none; 160],
            down: [false; 96],
            count: 0,
        }
    }

    /// How many edges wait, at most 160.
    pub fn waiting(&self) -> usize
        ensures count { result ≡ length (queue_of self.now).waiting }
        ensures range { result ≤ 160 }
        ensures few { result < 160 → result ≡ self.now.count }
        ensures long { length self.now.edges ≡ 160 }
    {
        let count = self.count as usize;
        if count < EDGES { count } else { EDGES }
    }

    /// Whether the key at a place is down after the edges that wait.
    pub fn is_down(&self, place: Place) -> bool
        ensures down { result ≡ is_down (queue_of self.now) place }
    {
        self.down[place.number() as usize]
    }

    /// Whether the key at a place is so already: down, or up.
    fn is_repeated(&self, place: u8, down: bool) -> bool
        requires place { place < 96 }
        ensures { result ≡ is_repeated (edge_at 0 place down) (queue_of self.now) }
    {
        let now = self.down[place as usize];
        if down { now } else { !now }
    }

    /// Whether there is no room for an edge more.
    fn is_full(&self, down: bool) -> bool
        ensures { result ≡ is_full down (queue_of self.now) }
    {
        if down {
            PRESSES <= self.waiting()
        } else {
            EDGES <= self.waiting()
        }
    }

    /// The key at a place goes down or up at a stamp.
    fn enter(&mut self, stamp: u64, place: u8, down: bool) -> Result<(), NotQueued>
        requires place { place < 96 }
        ensures answer { result ≡ answer_of (edge_at stamp place down) (queue_of self.old) }
        ensures after { queue_of self.new ≡ pushed (edge_at stamp place down) (queue_of self.old) }
    {
        if self.is_repeated(place, down) {
            return Err(NotQueued::Repeated);
        }
        if self.is_full(down) {
            return Err(NotQueued::Full);
        }
        let last = self.waiting();
        self.edges[last] = Pushed { stamp, place, down };
        self.count = last as u8 + 1;
        self.down[place as usize] = down;
        Ok(())
    }

    /// The key at a place goes down or up at a stamp, after all edges that wait. Refused if the key is so already, or if it
    /// goes down and 64 edges wait.
    pub fn push(&mut self, stamp: u64, place: Place, down: bool) -> Result<(), NotQueued>
        ensures answer { result ≡ answer_of (edge_at stamp place down) (queue_of self.old) }
        ensures after { queue_of self.new ≡ pushed (edge_at stamp place down) (queue_of self.old) }
    {
        self.enter(stamp, place.number(), down)
    }

    /// Each key that is down goes up at a stamp, in the order of their places, after all edges that wait.
    pub fn release_all(&mut self, stamp: u64)
        ensures after { queue_of self.new ≡ all_released stamp (queue_of self.old) }
    {
        let mut place = 0;
        'places: while place < PLACES {
            let _ = self.enter(stamp, place, false);
            place += 1;
        }
    }
}
