//! Histories whose events are handed out one after another.

ghost use Rattle.std.specs.Prelude.{◌≡◌};
ghost use Rattle.std.specs.List.{slice_get};
ghost use Rattle.key_file.specs.Feeds.{Fed, edge_taken, host_taken};

use board_terms::{Edge, HostEvent};

/// A history whose edges and host events are taken one after another, each kind in its order. A clause sees the history
/// and how many of each were taken.
pub trait Feed: Drop {
    ghost feeds: { Self → Fed };

    /// The stamp at which the history ends, in cycles.
    fn end(&self) -> u64
        ensures end { result ≡ (feeds self.now).history.end };

    /// The next edge; None exactly if all were taken.
    fn next_edge(&mut self) -> Option<Edge>
        ensures edge { result ≡ slice_get (feeds self.old).history.edges (feeds self.old).edges }
        ensures taken { feeds self.new ≡ edge_taken result (feeds self.old) };

    /// The next event of the host; None exactly if all were taken.
    fn next_host(&mut self) -> Option<HostEvent>
        ensures event { result ≡ slice_get (feeds self.old).history.host (feeds self.old).host }
        ensures taken { feeds self.new ≡ host_taken result (feeds self.old) };
}
