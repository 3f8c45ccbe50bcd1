//! Where a chip is.

ghost use Rattle.chip_core.specs.declared.chip.Chip.{Chip};
ghost use Rattle.kbd48_chip.specs.Placed.{lies};

use std::marker::Model;

/// A pointer to a chip in memory of the caller's.
#[repr(C)]
pub struct ChipAt {
    pub(crate) at: *mut u8,
    ghost chip: { Chip },
}

impl Model for ChipAt {
    ghost also_owns = { λ c. lies c.at c.chip };
}
