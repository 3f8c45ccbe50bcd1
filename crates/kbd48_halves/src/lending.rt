//! What a pointer leads to.

ghost use Rattle.std.specs.Prelude.{◌≡◌};
ghost use Rattle.std.specs.Borrow.{sem};
ghost use Rattle.kbd48_halves.specs.Lends.{lends_controller, lends_keyboard};

use crate::controller_at::ControllerAt;
use crate::keyboard_at::KeyboardAt;
use ctl_half::CtlHalf;
use kbd_half::KbdHalf;

impl KeyboardAt {
    /// The keyboard, where it is.
    #[inline(always)]
    pub(crate) fn keyboard(&mut self) -> &mut KbdHalf
        ensures* writes_back { sem 𝓛 (lends_keyboard self.entry result) }
        ensures value { result.now ≡ self.old.keyboard }
    {
        unsafe { &mut *(self.at as *mut KbdHalf) }
    }
}

impl ControllerAt {
    /// The controller, where it is.
    #[inline(always)]
    pub(crate) fn controller(&mut self) -> &mut CtlHalf
        ensures* writes_back { sem 𝓛 (lends_controller self.entry result) }
        ensures value { result.now ≡ self.old.controller }
    {
        unsafe { &mut *(self.at as *mut CtlHalf) }
    }
}
