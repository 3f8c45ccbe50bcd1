//! A sink that drops what it takes.

ghost use Rattle.std.specs.Prelude.{◌≡◌, ℕ, ◌<◌, ◌≤◌, List, length, None, Ok, IfOk, OnErr, OnOk};
ghost use Rattle.std.specs.declared.option.Option.{Option};
ghost use Rattle.io_edge.specs.Faults.{Rose};
ghost use Rattle.io_edge.specs.Sink.{Takes};

use crate::sink::{Sink, SinkFault};

/// A sink that takes every piece whole, drops it, and never fails.
#[derive(Clone, Copy, Debug)]
pub struct DropSink;

impl DropSink {
    /// The sink, which keeps nothing.
    pub fn new() -> DropSink {
        DropSink
    }
}

impl Sink for DropSink {
    ghost shown = { λ s. record { taken = None; in_memory = None; faults = 0 } };

    fn put(&mut self, piece: &[u8]) -> Result<usize, SinkFault>
        requires some { 0 < length piece.now }
        ensures count { 0 ≤ 0 }
        ensures some { IfOk result (λ n. 0 < n) }
        ensures within { IfOk result (λ n. n ≤ length piece.now) }
        ensures took { IfOk result (λ n. Takes None None piece.now n) }
        ensures steady { let none : ℕ = 0 in OnOk result (none ≡ none) }
        ensures failed { OnErr result (Rose 0 0) }
        ensures whole { result ≡ Ok (length piece.now) }
    {
        Ok(piece.len())
    }
}
