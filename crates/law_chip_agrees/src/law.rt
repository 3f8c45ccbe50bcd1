//! The law.

ghost use Rattle.law_chip_agrees.specs.Law.{FillLaw, RunLaw, StepLaw};

/// Let a chip be given, in each step, the levels that the board of a history shows at the processor's pins. Then it has, after
/// each step, the program and the state of the processor in the joint run of that program under that history. A step answers
/// the cycles of the run's step, and in each of them the board sees the latches that the step answers. This holds from a
/// reset of a part that held anything, and so from `Chip::new` with any byte. Nothing is done when it is called; the laws are
/// its contract.
pub fn chip_is_the_boards()
    ensures step { StepLaw }
    ensures run { RunLaw }
    ensures fill { FillLaw }
{}
