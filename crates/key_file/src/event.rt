//! An event of a key file.

ghost use Rattle.std.specs.Prelude.{◌≡◌};
ghost use Rattle.key_file.specs.Histories.{stamp_at};

use board_terms::{Edge, HostEvent};

/// What a line says that isn't skipped.
#[derive(Clone, Copy)]
pub(crate) enum Event {
    /// A key goes down or up.
    EdgeOf(Edge),
    /// The host acts.
    HostOf(HostEvent),
    /// The history ends, at this stamp.
    End(u64),
}

impl Event {
    /// The stamp, in cycles.
    pub(crate) fn stamp(&self) -> u64
        ensures { result ≡ stamp_at self.now }
    {
        match self {
            Event::EdgeOf(edge) => edge.stamp,
            Event::HostOf(event) => event.stamp,
            Event::End(stamp) => *stamp,
        }
    }
}
