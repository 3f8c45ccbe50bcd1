//! The keyboard takes the edges of a queue one a tick, in their order, and has time to send each.
//!
//! This layer has one law, over `edge_queue` and the ticks of `model_link`; nothing calls it for what it does. Source: our
//! own.
#![tactic(auto)]

ghost use Rattle.law_keys_seen.specs.Turns.{AreSeenInTurn, AreTakenInTurn, AreTakenOneLater};

/// Whatever is pushed into a queue, and whenever edges are taken from it: let the starts of the ticks keep their cadence.
/// Then an edge that is handed over after another is seen in a later tick, and after a release, which is two bytes, or with a
/// debounce at least two ticks later. Each edge that is handed over is taken by one tick, which takes no other, in the
/// caller's order, whatever their places; with a debounce that is the tick after the one that sees it. Nothing is done when
/// it is called; the law is its contract.
pub fn seen_in_turn()
    ensures turns { AreSeenInTurn }
    ensures taken { AreTakenInTurn }
    ensures one_later { AreTakenOneLater }
{}
