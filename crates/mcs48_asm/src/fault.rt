//! Why a text has no image.

ghost use Rattle.std.specs.Prelude.{◌≡◌};
ghost use Rattle.mcs48_asm.specs.declared.fault.AsmFault.TheVariants.{Memory};

use std::alloc::{AllocError, AllocFailed};
use thiserror::Error;

/// Why a text has no image.
#[derive(Clone, Copy, Debug, PartialEq, Eq, Drop, Error)]
pub enum AsmFault {
    /// The first line with a fault, counted from 1, and its lowest fault, 1 to 8.
    #[error("line {line} has fault {number}")]
    Line { line: u32, number: u8 },
    /// There is no memory for the names.
    #[error("out of memory")]
    Memory,
}

impl From<AllocError> for AsmFault {
    ghost from_gives = { λ _ e. e ≡ Memory };

    fn from(_error: AllocError) -> Self {
        AsmFault::Memory
    }
}
