//! A law of the controller's wires, the contract of a function that does nothing.

ghost use Rattle.ctl_wire.specs.Pulls.{PullsLast};

/// Each pull of the clock, by a hold, by an ask, or by a hold and then an ask, lasts 64 cycles at least, whatever is on
/// the wires and whatever the host does.
pub fn pulls_last()
    ensures pulls { PullsLast }
{}
