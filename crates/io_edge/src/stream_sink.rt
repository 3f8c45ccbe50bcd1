//! The sink over a real stream.

ghost use Rattle.std.specs.Prelude.{◌≡◌, ℕ, ◌<◌, ◌≤◌, List, length, None, IfOk, OnErr, OnOk};
ghost use Rattle.std.specs.declared.option.Option.{Option};
ghost use Rattle.std.specs.Io.KnownBytes.{WriteAppends};
ghost use Rattle.io_edge.specs.Faults.{one_more, Rose};
ghost use Rattle.io_edge.specs.Sink.{Takes};

use crate::sink::{Sink, SinkFault};
use std::io::Write;
use std::marker::Model;

/// A writer as a sink. Each put is one write, and answers as many bytes as the writer took; one that fails, or takes no
/// byte, raises the count of faults.
#[derive(Drop)]
pub struct StreamSink<W: Write + Drop> {
    writer: W,
    faults: u64,
}

impl<W: Write + Drop> Model for StreamSink<W> {
    ghost use Rattle.io_edge.specs.Stream.{Stream};

    ghost Value = { Stream };

    ghost view = { λ s. record { contents = W.contents s.writer; faults = s.faults } };
}

impl<W: Write + Drop> StreamSink<W> {
    /// A sink that writes to this writer.
    pub fn new(writer: W) -> StreamSink<W>
        ensures contents { result.contents ≡ W.contents writer }
        ensures faults { result.faults ≡ 0 }
    {
        StreamSink { writer, faults: 0 }
    }
}

impl<W: Write + Drop> Sink for StreamSink<W> {
    ghost shown = { λ s. record { taken = None; in_memory = None; faults = s.faults } };

    fn put(&mut self, piece: &[u8]) -> Result<usize, SinkFault>
        requires some { 0 < length piece.now }
        ensures count { self.old.faults ≤ self.new.faults }
        ensures some { IfOk result (λ n. 0 < n) }
        ensures within { IfOk result (λ n. n ≤ length piece.now) }
        ensures took { IfOk result (λ n. Takes None None piece.now n) }
        ensures steady { OnOk result (self.new.faults ≡ self.old.faults) }
        ensures failed { OnErr result (Rose self.old.faults self.new.faults) }
        ensures exact { OnErr result (self.new.faults ≡ one_more self.old.faults) }
        ensures appended { WriteAppends self.old.contents self.new.contents result piece.now }
    {
        match self.writer.write(piece) {
            Ok(0) | Err(_) => {
                self.faults = self.faults.saturating_add(1);
                Err(SinkFault::Failed)
            }
            Ok(size) => Ok(size),
        }
    }
}
