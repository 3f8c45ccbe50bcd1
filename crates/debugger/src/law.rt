//! What a probe counts in a session, as laws over the definitions, each a clause of a function that does nothing.

ghost use Rattle.debugger.specs.CountLaw.{WalkCounts, HuntCounts, LinesCount, CountsSinceArmed, LinesAreObeyed};

/// A probe counts the steps whose state meets it, over every session.
///
/// After the steps that `step` or `go` makes (`walk`, `hunt`), each probe keeps its kind and its arms; its count has grown
/// by the number of these steps whose state meets it, to the greatest 64-bit number at most; and if it had no first
/// step, the least of them is its first. A probe goes on counting through the lines of a session until one arms it or
/// drops it, whatever they do with the others (`lines`), and one that a line arms reports what has met it since then
/// (`armed`). The lines of a script are these lines (`script`).
pub fn probes_count()
    ensures walk { WalkCounts }
    ensures hunt { HuntCounts }
    ensures lines { LinesCount }
    ensures armed { CountsSinceArmed }
    ensures script { LinesAreObeyed }
{}
