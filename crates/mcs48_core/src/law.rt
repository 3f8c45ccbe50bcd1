//! A law over the definitions alone: they compute.

ghost use Rattle.mcs48_core.specs.Path.{PathLaw};

/// Thirty-six instructions of every group, executed by the definitions of a step over a concrete program, from any
/// registers, flags, latches, timer and data memory: the state that they come to and the 55 machine cycles that they
/// take. Nothing is done when it is called; the law is its contract.
pub fn a_path_of_thirty_six_instructions()
    ensures path { PathLaw }
{}
