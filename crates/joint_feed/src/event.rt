//! The two kinds of events, as a feed gives them.

ghost use Rattle.std.specs.Prelude.{◌≡◌, ℕ, ◌+◌, List, length, slice_get};
ghost use Rattle.std.specs.Option.{option_to_list};
ghost use Rattle.key_file.specs.Feeds.{Fed};
ghost use Rattle.key_file.specs.Histories.{KeyHistory};

use board_terms::{Edge, HostEvent};
use key_file::Feed;

/// A kind of event that a feed gives.
pub(crate) trait Event: Copy + Default {
    /// All of this kind in a history.
    ghost all: { KeyHistory → List Self };

    /// How many of them were taken.
    ghost taken: { Fed → ℕ };

    /// How many of the other kind were taken.
    ghost others: { Fed → ℕ };

    /// The next one; None exactly if all were taken.
    fn next<F: Feed>(feed: &mut F) -> Option<Self>
        ensures next { result ≡ slice_get (all (F.feeds feed.old).history) (taken (F.feeds feed.old)) }
        ensures taken { taken (F.feeds feed.new) ≡ taken (F.feeds feed.old) + length (option_to_list result) }
        ensures history { (F.feeds feed.new).history ≡ (F.feeds feed.old).history }
        ensures others { others (F.feeds feed.new) ≡ others (F.feeds feed.old) };
}

impl Event for Edge {
    ghost all = { λ history. history.edges };

    ghost taken = { λ fed. fed.edges };

    ghost others = { λ fed. fed.host };

    fn next<F: Feed>(feed: &mut F) -> Option<Edge> {
        feed.next_edge()
    }
}

impl Event for HostEvent {
    ghost all = { λ history. history.host };

    ghost taken = { λ fed. fed.host };

    ghost others = { λ fed. fed.edges };

    fn next<F: Feed>(feed: &mut F) -> Option<HostEvent> {
        feed.next_host()
    }
}
