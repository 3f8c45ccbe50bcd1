//! A law over the definitions alone.

ghost use Rattle.joint_run.specs.Laws.{NumberedStarts};

/// What a proof reaches by going from one tick start to the next, n times, is the n-th tick start of the run. Nothing
/// is done when it is called; the law is its contract.
pub fn starts_are_numbered()
    ensures numbered { NumberedStarts }
{}
