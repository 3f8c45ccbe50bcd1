//! Laws of the queue, each the contract of a function that does nothing.

ghost use Rattle.edge_queue.specs.Laws.{AreLawful, AreInCallersOrder, ReleasesFit};

/// Whatever is pushed into a queue, and whenever edges are taken from it, for a keyboard with a debounce or without: the
/// edges that were handed over are a lawful history, each of which has its time; they are those that were pushed and not
/// refused, in that order; and a key that is down finds room for its release.
pub fn edges_are_lawful()
    ensures lawful { AreLawful }
    ensures order { AreInCallersOrder }
    ensures room { ReleasesFit }
{}
