//! The law.

ghost use Rattle.law_halves_agree.specs.Acts.{ActLaw};
ghost use Rattle.law_halves_agree.specs.Law.{BeginLaw, RunLaw, StepLaw};

/// Let a loop join a keyboard and a controller. It makes a step of the keyboard at the levels of the wires. Then the step's
/// cycles pass: in each the controller looks at the wires, the host has its turn, and the controller settles. Then keyboard
/// and controller have, after each step, the state that the joint run of that program has, for every step, every history and
/// any byte in data memory at power-on; and what the host read and what the controller said is the same. If the run is stuck,
/// so is the loop. The host's turn is a list of calls of the controller: writes, reads of port 60h, and noise. The pins of
/// the controller's input port are those of the joint run's machine, B0, as after power-on: with other pins command C0 puts
/// out another byte. Nothing is done when it is called; the laws are its contract.
pub fn halves_are_the_joint_run()
    ensures begin { BeginLaw }
    ensures step { StepLaw }
    ensures run { RunLaw }
    ensures act { ActLaw }
{}
