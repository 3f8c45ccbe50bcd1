//! A law over the definitions alone.

ghost use Rattle.joint_glide.specs.Calls.{StretchLaw};

/// Steps of the processor alone, in cycles in which nothing changes outside it and no edge is made, with port 2 as it was,
/// are joint steps, which take no event and say nothing. Nothing is done when it is called; the law is its contract.
pub fn calls_are_joint_steps()
    ensures stretch { StretchLaw }
{}
