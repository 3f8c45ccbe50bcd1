//! The keys that have a meaning of their own, by scan code.

ghost use Rattle.std.specs.Prelude.{◌≡◌, ◌<◌, IfSome};
ghost use Rattle.std.specs.Option.{option_map};
ghost use Rattle.int09.specs.Keys.{shift_bit, lock_bit, keypad_digit};

use super::flags::{Downs, Shifts};

/// The bit in 40:17 of a shift key, Ctrl or Alt.
pub(crate) fn shift_key(code: u8) -> Option<Shifts>
    ensures { option_map (λ bit. bit.0) result ≡ shift_bit code }
{
    match code {
        0x36 => Some(Shifts::RIGHT_SHIFT),
        0x2a => Some(Shifts::LEFT_SHIFT),
        0x1d => Some(Shifts::CTRL),
        0x38 => Some(Shifts::ALT),
        _ => None,
    }
}

/// The bits in 40:17 and 40:18 of Scroll Lock, Num Lock, Caps Lock or Insert.
pub(crate) fn lock_key(code: u8) -> Option<(Shifts, Downs)>
    ensures state { option_map (λ bits. bits.0.0) result ≡ lock_bit code }
    ensures down { option_map (λ bits. bits.1.0) result ≡ lock_bit code }
{
    match code {
        0x46 => Some((Shifts::SCROLL, Downs::SCROLL)),
        0x45 => Some((Shifts::NUM, Downs::NUM)),
        0x3a => Some((Shifts::CAPS, Downs::CAPS)),
        0x52 => Some((Shifts::INSERT, Downs::INSERT)),
        _ => None,
    }
}

/// The digit on a key of the keypad.
pub(crate) fn keypad_digit(code: u8) -> Option<u8>
    ensures digit { result ≡ keypad_digit code }
    ensures range { IfSome result (λ digit. digit < 10) }
{
    match code {
        0x52 => Some(0),
        0x4f => Some(1),
        0x50 => Some(2),
        0x51 => Some(3),
        0x4b => Some(4),
        0x4c => Some(5),
        0x4d => Some(6),
        0x47 => Some(7),
        0x48 => Some(8),
        0x49 => Some(9),
        _ => None,
    }
}
