//! A history: what happens from outside in a run.

ghost use Rattle.std.specs.Prelude.{◌≡◌};
ghost use Rattle.key_file.specs.Accepted.{IsAccepted};
ghost use Rattle.key_file.specs.Histories.{KeyHistory};

use board_terms::{Edge, HostEvent};
use std::marker::Model;

/// A history that is accepted, as far as that doesn't hang on the layout. Stamps count cycles of 2.5 microseconds;
/// stamp 0 is cycle 4,096 of a run.
///
/// The stamps of the edges don't fall, nor do those of the host's events, and none is past the end, which is at most
/// 240,000,000. There are at most 65,536 events. The edges of a key are press, release, press and so on, at least 2,240
/// cycles apart, and so are an edge and the fourth one after it. The bit of each flip is 1 to 9.
#[derive(Debug, Drop)]
pub struct History {
    edges: Vec<Edge>,
    host: Vec<HostEvent>,
    end: u64,
}

impl Model for History {
    ghost use Rattle.key_file.specs.Accepted.{IsAccepted};
    ghost use Rattle.key_file.specs.Histories.{KeyHistory};

    ghost Value = { KeyHistory };

    ghost view = { λ history. record { edges = history.edges.items; host = history.host.items; end = history.end } };

    ghost invariant = { λ history. IsAccepted (record { edges = history.edges.items; host = history.host.items; end = history.end }) };
}

impl History {
    /// A history of edges, of the host's events and of an end, which are accepted.
    pub fn new(edges: Vec<Edge>, host: Vec<HostEvent>, end: u64) -> History
        requires accepted { IsAccepted (record { edges = edges.items; host = host.items; end = end }) }
        ensures history { result ≡ record { edges = edges.items; host = host.items; end = end } }
    {
        History { edges, host, end }
    }

    /// The edges of the keys, in their order.
    pub fn edges(&self) -> &[Edge]
        ensures edges { result.now ≡ self.now.edges }
        ensures accepted { IsAccepted self.now }
    {
        self.edges.as_slice()
    }

    /// The events of the host, in their order.
    pub fn host(&self) -> &[HostEvent]
        ensures host { result.now ≡ self.now.host }
        ensures accepted { IsAccepted self.now }
    {
        self.host.as_slice()
    }

    /// The stamp at which the history ends, in cycles.
    pub fn end(&self) -> u64
        ensures end { result ≡ self.now.end }
        ensures accepted { IsAccepted self.now }
    {
        self.end
    }
}
