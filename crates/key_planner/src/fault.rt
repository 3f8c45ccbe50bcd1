//! Why a text has no plan.

ghost use Rattle.std.specs.Prelude.{◌≡◌};
ghost use Rattle.key_planner.specs.declared.fault.PlanFault.TheVariants.{Memory};

use std::alloc::AllocError;
use thiserror::Error;

/// Why a text has no plan.
#[derive(Clone, Copy, Debug, PartialEq, Eq, Drop, Error)]
pub enum PlanFault {
    /// A byte has no key; it is the first such, counted from 1.
    #[error("byte {at} of the text, {byte}, has no key")]
    NoKey { at: u32, byte: u8 },
    /// There is no memory.
    #[error("out of memory")]
    Memory,
}

impl From<AllocError> for PlanFault {
    ghost from_gives = { λ _ fault. fault ≡ Memory };

    fn from(_error: AllocError) -> Self {
        PlanFault::Memory
    }
}
