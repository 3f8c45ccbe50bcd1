//! Why a document gives no layout.

ghost use Rattle.std.specs.Prelude.{◌≡◌};
ghost use Rattle.layout_reader.specs.declared.fault.LayoutFault.TheVariants.{Memory};

use std::alloc::AllocError;
use thiserror::Error;

/// Why a document gives no layout.
#[derive(Clone, Copy, Debug, PartialEq, Eq, Drop, Error)]
pub enum LayoutFault {
    /// The first entry with a fault, and the number (1 to 13) of its first fault. Entry 0 is the document's top level;
    /// the entries count from 1.
    #[error("entry {entry} has fault {number}")]
    Entry { entry: u32, number: u8 },
    /// There is no memory.
    #[error("out of memory")]
    Memory,
}

impl From<AllocError> for LayoutFault {
    ghost from_gives = { λ _ fault. fault ≡ Memory };

    fn from(_error: AllocError) -> Self {
        LayoutFault::Memory
    }
}
