//! The keyboard at any host: the run of a layout's image whatever the pins show, and what a host that keeps the rules of the
//! link hears of it.
//!
//! This layer knows the firmware's ticks on any board, the keyboard of the model, and two wires that take time to rise. It
//! must not know our keyboard controller, nor the PC beside it: a host is what is pulled on the two wires, cycle by cycle.
//! `docs/LINK.md` has its rules. Its times are machine cycles of 2.5 microseconds. Source: our own, after the PC/AT Technical
//! Reference, which lets the system pull the clock for 60 microseconds and break a byte off before its tenth clock.
#![tactic(auto)]

ghost use Rattle.law_any_host.specs.AnyHost.{AnyHostLaw, LatchLaw};
ghost use Rattle.law_any_host.specs.AnyPins.{AnyPinsLaw, OneMeetingLaw};
ghost use Rattle.law_any_host.specs.Bounds.{SharpLaw};
ghost use Rattle.law_any_host.specs.Hearing.{RulefulLaw};

/// For every layout, at any host and on any board, whatever a part holds when it is switched on: if the columns show no key
/// as down that the layout doesn't have, any number of keys at once, the run is never stuck. At each tick start data memory
/// shows the model's keyboard, which goes on by the edges that the tick's columns show and by the meeting that its looks
/// find. In each cycle of the tick both ports are those of a tick with that frame. A tick lasts at most 2,054 cycles, and 62
/// more for each key that changed. What the looks find is one frame and one meeting. Nothing is done when it is called; the
/// laws are its contract.
pub fn at_any_host()
    ensures any_pins { AnyPinsLaw }
    ensures one_meeting { OneMeetingLaw }
{}

/// A host that keeps the rules of the link takes the bytes of the keyboard's sent frames, each once and right, in order,
/// whether it counts a byte as taken at its eleventh fall of the clock or at the tenth; and the keyboard gets each byte that
/// the host sends once and right, in order. A wire that both have let go is high two cycles (5 microseconds) later, and may
/// show anything in between. This is of the wires alone, whatever drives them in such ticks. Nothing is done when it is
/// called; the law is its contract.
pub fn hears_each()
    ensures ruleful { RulefulLaw }
{}

/// At the end of a byte no weaker rule would do. A host that keeps the others, and may begin a pull of the clock 18 cycles
/// after the tenth fall, gets a byte twice if it counts ten falls, and loses one if it counts eleven. Nothing is done when it
/// is called; the law is its contract.
pub fn ends_are_sharp()
    ensures sharp { SharpLaw }
{}

/// For every layout, at any host that keeps the rules of the link and counts ten falls of the clock a byte or eleven, with
/// wires that take up to two cycles (5 microseconds) to rise, whatever a part holds when it is switched on: if the columns
/// show no key as down that the layout doesn't have, any number of keys at once, the bytes that the host takes are those that
/// the model's keyboard offers in the ticks whose meeting is Sent, each once and right, in order; and the keyboard gets each
/// byte that the host sends once and right, in order. Each such run has its wiring, whatever the host does. Nothing is done
/// when it is called; the laws are its contract.
pub fn works_at_any_host()
    ensures host { AnyHostLaw }
    ensures wirings { LatchLaw }
{}
