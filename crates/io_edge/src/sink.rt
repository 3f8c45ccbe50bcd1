//! Where the text goes.

ghost use Rattle.std.specs.Prelude.{◌≡◌, ◌<◌, ◌≤◌, length, Some, IfOk, IfSome, OnErr, OnOk};
ghost use Rattle.io_edge.specs.Faults.{Rose};
ghost use Rattle.io_edge.specs.MemorySink.{after_put, put_answer};
ghost use Rattle.io_edge.specs.Said.{Shown};
ghost use Rattle.io_edge.specs.Sink.{Takes};

/// Why a put took nothing.
#[derive(Clone, Copy, Debug, PartialEq, Eq, Drop)]
pub enum SinkFault {
    Failed,
}

/// Where the text goes. A sink shows its count of faults, which never falls. A sink in memory also shows what it has
/// taken, how many puts it has had, and all else that decides what its next put does.
pub trait Sink {
    ghost shown: { Self → Shown };

    /// Takes a prefix of the piece, which isn't empty, and answers how many bytes it took, at least 1.
    fn put(&mut self, piece: &[u8]) -> Result<usize, SinkFault>
        requires some { 0 < length piece.now }
        ensures count { (shown self.old).faults ≤ (shown self.new).faults }
        ensures some { IfOk result (λ n. 0 < n) }
        ensures within { IfOk result (λ n. n ≤ length piece.now) }
        ensures took { IfOk result (λ n. Takes (shown self.old).taken (shown self.new).taken piece.now n) }
        ensures steady { OnOk result ((shown self.new).faults ≡ (shown self.old).faults) }
        ensures failed { OnErr result (Rose (shown self.old).faults (shown self.new).faults) }
        ensures nothing { OnErr result ((shown self.new).taken ≡ (shown self.old).taken) }
        ensures answer { IfSome (shown self.old).in_memory (λ sink. result ≡ put_answer sink piece.now) }
        ensures after { IfSome (shown self.old).in_memory (λ sink. (shown self.new).in_memory ≡ Some (after_put sink piece.now)) };
}
