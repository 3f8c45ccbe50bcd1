//! Where a keyboard is.

ghost use Rattle.kbd_half.specs.declared.keyboard.KbdHalf.{KbdHalf};
ghost use Rattle.kbd48_halves.specs.Placed.{keyboard_lies};

use std::marker::Model;

/// A pointer to a keyboard in memory of the caller's.
#[repr(C)]
pub struct KeyboardAt {
    pub(crate) at: *mut u8,
    ghost keyboard: { KbdHalf },
}

impl Model for KeyboardAt {
    ghost also_owns = { λ k. keyboard_lies k.at k.keyboard };
}
