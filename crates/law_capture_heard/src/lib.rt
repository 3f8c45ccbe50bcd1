//! What a capture reads in the trace of a run is what is on the two wires in that run.
//!
//! This layer knows the text of a trace, the reader of value change dumps, and what is found in pulses of the clock. It has
//! laws alone, and nothing calls it for what it does. It must not know how a run is made. Our own.
#![tactic(auto)]

ghost use Rattle.law_capture_heard.specs.Captured.{ReadBackLaw};
ghost use Rattle.law_capture_heard.specs.Found.{FoundLaw};
ghost use Rattle.law_capture_heard.specs.Pulses.{PulsesLaw};
ghost use Rattle.law_capture_heard.specs.Seen.{SeenBackLaw};

/// The trace of any run, of any program under any history, is read back as a capture without a fault. The capture has just
/// the samples at which a wire turns, each at its time, and what is found in them is what a listener finds that has a
/// sample after each step of the run. So it is of the first steps of the run, up to 10^12 of them, of which a trace has
/// the text. A trace with data as the controller sees it is read so by the names of its two wires, too; and by the name of
/// that signal it has just the samples at which a wire turns with another level of the clock or of that signal. Nothing is
/// done when it is called; the laws are its contract.
pub fn traces_are_read_back()
    ensures read_back { ReadBackLaw }
    ensures seen_back { SeenBackLaw }
{}

/// Each pulse of the clock in the run of a layout's compiled image, under a history that is lawful for the layout, is the
/// keyboard's, of 16 cycles (40 µs), or one in which the controller pulls the clock, of at least 62 cycles (155 µs). So the
/// listener takes none for a glitch, and knows by its width who makes it. Nothing is done when it is called; the law is its
/// contract.
pub fn pulses_are_wide()
    ensures pulses { PulsesLaw }
{}

/// The bytes that a capture finds in the trace of the run of a layout's compiled image, under a history that is lawful for
/// the layout, are those that pass over the wires in that run, in their order: each is right, and is found at its time, and
/// no other byte is found. So it is of the first steps of the run, up to 10^12 of them. A request of the controller may wait
/// for any time, as it does during a self-test: meanwhile the controller keeps data low. Nothing is done when it is called; the
/// law is its contract.
pub fn bytes_are_found()
    ensures found { FoundLaw }
{}
