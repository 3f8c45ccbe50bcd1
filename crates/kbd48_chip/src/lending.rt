//! The chip that a pointer leads to.

ghost use Rattle.std.specs.Prelude.{◌≡◌};
ghost use Rattle.std.specs.Borrow.{sem};
ghost use Rattle.kbd48_chip.specs.Lends.{lends_chip};

use crate::chip_at::ChipAt;
use chip_core::Chip;

impl ChipAt {
    /// The chip, where it is.
    #[inline(always)]
    pub(crate) fn chip(&mut self) -> &mut Chip
        ensures* writes_back { sem 𝓛 (lends_chip self.entry result) }
        ensures value { result.now ≡ self.old.chip }
    {
        unsafe { &mut *(self.at as *mut Chip) }
    }
}
