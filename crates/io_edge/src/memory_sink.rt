//! A sink into memory.

ghost use Rattle.std.specs.Prelude.{◌≡◌, ℕ, ◌<◌, ◌≤◌, length, Some, IfOk, OnErr, OnOk};
ghost use Rattle.io_edge.specs.Faults.{Rose};
ghost use Rattle.io_edge.specs.Sink.{Takes};
ghost use Rattle.io_edge.specs.MemorySink.{after_put, empty_sink, put_answer};

use crate::count::is_among;
use crate::sink::{Sink, SinkFault};
use std::alloc::{AllocError, Global};
use std::marker::Model;

/// Room in memory for so many bytes, of which a put takes at most so many, and chosen puts fail.
#[derive(Drop)]
pub struct MemSink {
    taken: Vec<u8>,
    room: usize,
    at_most: usize,
    puts: u64,
    fails: Vec<u32>,
    faults: u64,
}

impl Model for MemSink {
    ghost use Rattle.std.specs.Prelude.{ℕ, ◌<◌, ◌≤◌, length, vec_capacity};
    ghost use Rattle.io_edge.specs.MemorySink.{HeldBytes};

    ghost Value = { HeldBytes };

    ghost view = { λ s. record { taken = s.taken.items; room = s.room; at_most = s.at_most; puts = s.puts; fails = s.fails.items; faults = s.faults } };

    ghost invariant = { λ s. (length s.taken.items ≤ s.room) × (s.room ≤ vec_capacity s.taken) × (0 < s.at_most) };
}

impl MemSink {
    /// An empty sink with room for so many bytes, all of which it takes from `alloc` at once. A put takes at most
    /// `at_most` bytes. The puts whose numbers, from 1, are in `fails` fail.
    fn empty(
        alloc: Global,
        room: usize,
        fails: Vec<u32>,
        at_most: usize,
    ) -> Result<MemSink, AllocError>
        requires { 0 < at_most }
        ensures { IfOk result (λ sink. sink ≡ empty_sink room fails.items at_most) }
    {
        Ok(MemSink {
            taken: Vec::with_capacity(alloc, room)?,
            room,
            at_most,
            puts: 0,
            fails,
            faults: 0,
        })
    }

    /// An empty sink with room for so many bytes, all of which it takes from `alloc` at once. The puts whose numbers,
    /// from 1, are in `fails` fail, and so does each put for which no room is left.
    pub fn new(alloc: Global, room: usize, fails: Vec<u32>) -> Result<MemSink, AllocError>
        ensures sink { IfOk result (λ sink. sink ≡ empty_sink room fails.items usize.MAX) }
    {
        MemSink::empty(alloc, room, fails, usize::MAX)
    }

    /// The same, but a put takes at most `at_most` bytes, which is at least 1.
    pub fn short(
        alloc: Global,
        room: usize,
        fails: Vec<u32>,
        at_most: u32,
    ) -> Result<MemSink, AllocError>
        requires some { 0 < at_most }
        ensures sink { IfOk result (λ sink. sink ≡ empty_sink room fails.items at_most) }
    {
        MemSink::empty(alloc, room, fails, at_most as usize)
    }

    /// The bytes taken so far.
    pub fn taken(&self) -> &[u8]
        ensures bytes { result.now ≡ self.now.taken }
        ensures within { length result.now ≤ self.now.room }
    {
        self.taken.as_slice()
    }
}

impl Sink for MemSink {
    ghost shown = { λ s. record { taken = Some s.taken; in_memory = Some s; faults = s.faults } };

    fn put(&mut self, piece: &[u8]) -> Result<usize, SinkFault>
        requires some { 0 < length piece.now }
        ensures count { self.old.faults ≤ self.new.faults }
        ensures some { IfOk result (λ n. 0 < n) }
        ensures within { IfOk result (λ n. n ≤ length piece.now) }
        ensures took { IfOk result (λ n. Takes (Some self.old.taken) (Some self.new.taken) piece.now n) }
        ensures steady { OnOk result (self.new.faults ≡ self.old.faults) }
        ensures failed { OnErr result (Rose self.old.faults self.new.faults) }
        ensures nothing { OnErr result (Some self.new.taken ≡ Some self.old.taken) }
        ensures answer { result ≡ put_answer self.old piece.now }
        ensures after { Some self.new ≡ Some (after_put self.old piece.now) }
    {
        self.puts = self.puts.saturating_add(1);
        let left = self.room - self.taken.len();
        if left == 0 || is_among(self.puts, &self.fails) {
            self.faults = self.faults.saturating_add(1);
            return Err(SinkFault::Failed);
        }
        let size = piece.len().min(left).min(self.at_most);
        let taken = self.taken.extend_from_slice(&piece[..size]);
        taken.map(|_| size).map_err(|_| SinkFault::Failed)
    }
}
