//! What is heard on the two wires is what the controller takes and sends.
//!
//! This layer knows both ears on the wires: the controller's, which takes and gives bits at the falling edges of the
//! clock, cycle by cycle, and that of a decoder, which samples the wires after each step of the processor. It proves that
//! in each step of the joint run the one hears what the other does. It must not know how a run is made, nor what a trace
//! of it looks like. Our own.
#![tactic(auto)]

ghost use Rattle.law_wires_heard.specs.Hearing.{AnyMemoryHeard, HeardLaw};
ghost use Rattle.law_wires_heard.specs.Probing.{ProbeLaw};

/// For every layout and every history that is lawful for it, however long: in each step of the joint run of the
/// layout's compiled image, the sample of the wires after the step completes a transfer if the controller's
/// eleventh edge of a frame lies in one of the step's cycles, and nowhere else: the keyboard's byte, as its bits were
/// on the wires, if the controller takes one; the controller's own, if it has sent one. A frame that is broken
/// off is none. So the transfers heard in the first steps of the run are, in order, the bytes that the controller takes
/// and sends in them. So it is of the run from cleared memory, which the program makes, and of the run from whatever a part
/// holds when it is switched on. Nothing is done when it is called; the laws are its contract.
pub fn wires_are_heard()
    ensures heard { HeardLaw }
    ensures any_memory { AnyMemoryHeard }
{}

/// A probe that listens to the wires counts exactly the steps in which the controller takes, or sends, its byte: in the
/// same runs, one that has listened from power-on, and is armed there or later for a direction and a byte, meets these
/// steps and no others, in their order. So the number and the first step that it reports are of these. Nothing is done when
/// it is called; the law is its contract.
pub fn wire_probes_count()
    ensures counted { ProbeLaw }
{}
