//! Where a controller is.

ghost use Rattle.ctl_half.specs.Controllers.{CtlState};
ghost use Rattle.kbd48_halves.specs.Placed.{controller_lies};

use std::marker::Model;

/// A pointer to a controller in memory of the caller's.
#[repr(C)]
pub struct ControllerAt {
    pub(crate) at: *mut u8,
    ghost controller: { CtlState },
}

impl Model for ControllerAt {
    ghost also_owns = { λ c. controller_lies c.at c.controller };
}
