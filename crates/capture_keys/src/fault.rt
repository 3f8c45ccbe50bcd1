//! Why a capture has no key file.

ghost use Rattle.std.specs.Prelude.{◌≡◌};
ghost use Rattle.capture_keys.specs.declared.fault.CaptureFault.TheVariants.{Memory};

use capture_vcd::VcdFault;
use std::alloc::AllocError;

/// Why a capture has no key file.
#[derive(Clone, Copy, Debug, PartialEq, Eq, Drop)]
pub enum CaptureFault {
    /// The dump breaks a rule; it is the first that it breaks.
    Dump(VcdFault),
    /// There is no memory.
    Memory,
}

impl From<AllocError> for CaptureFault {
    ghost from_gives = { λ _ fault. fault ≡ Memory };

    fn from(_error: AllocError) -> Self {
        CaptureFault::Memory
    }
}
