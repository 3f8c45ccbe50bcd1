//! What a probe counts and hears, as laws over the definitions, each a clause of a function that does nothing.

ghost use Rattle.run_probes.specs.LooksLaw.{LooksCount, CountsFromNone};
ghost use Rattle.run_probes.specs.Samples.{CompletesByFalls, KeepsElevenFalls};

/// A probe counts the steps whose state meets it, over every run.
///
/// After one look at each of the states that the first steps lead to (`looks`), each probe keeps its kind and its arms;
/// its count has grown by the number of these steps whose state meets it, to the greatest 64-bit number at most; and if
/// it had no first step, the least of them is its first. So a probe that had counted nothing reports how many they are, and
/// the least of them, or none if there are none (`from_none`).
pub fn looks_count()
    ensures looks { LooksCount }
    ensures from_none { CountsFromNone }
{}

/// The last sample and the last eleven falls are enough to know each transfer.
///
/// After samples of the wires, one after another, the decoder keeps the last of them and the last eleven of all their falls
/// (`kept`); and a sample completes a transfer exactly if it is a fall, and the last eleven of all falls, of which it is
/// the last, are one (`completed`).
pub fn transfers_are_heard()
    ensures kept { KeepsElevenFalls }
    ensures completed { CompletesByFalls }
{}
