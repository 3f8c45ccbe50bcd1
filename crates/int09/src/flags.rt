//! The bytes at 40:17 and 40:18 of the BIOS's data, as sets of bits.

ghost use Rattle.std.specs.Prelude.{⊤, [], ◌∷◌, codes};

use bitflags::{Flag, Flags, bitflag_items};

/// 40:17: which shift keys are down, and which lock states are on.
#[derive(Clone, Copy, PartialEq, Eq, Debug)]
pub(crate) struct Shifts(pub(crate) u8);

bitflag_items! {
    impl Shifts: u8 {
        const RIGHT_SHIFT = 0x01;
        const LEFT_SHIFT = 0x02;
        const CTRL = 0x04;
        const ALT = 0x08;
        const SCROLL = 0x10;
        const NUM = 0x20;
        const CAPS = 0x40;
        const INSERT = 0x80;
    }
}

impl Flags for Shifts {
    type Bits = u8;

    ghost exact = { ⊤ };

    ghost table = { (codes "RIGHT_SHIFT", 1)
        ∷ (codes "LEFT_SHIFT", 2)
        ∷ (codes "CTRL", 4)
        ∷ (codes "ALT", 8)
        ∷ (codes "SCROLL", 16)
        ∷ (codes "NUM", 32)
        ∷ (codes "CAPS", 64)
        ∷ (codes "INSERT", 128)
        ∷ [] };

    ghost set_of = { λ s. s.0 };

    fn flags<'a>() -> &'a [Flag<Shifts>] {
        Shifts::FLAGS
    }

    fn bits(&self) -> u8 {
        self.0
    }

    fn from_bits_retain(bits: u8) -> Shifts {
        Shifts(bits)
    }
}

/// 40:18: which of SysReq, the lock keys and Insert are down, and whether a pause is on.
#[derive(Clone, Copy, PartialEq, Eq, Debug)]
pub(crate) struct Downs(pub(crate) u8);

bitflag_items! {
    impl Downs: u8 {
        const SYSREQ = 0x04;
        const PAUSE = 0x08;
        const SCROLL = 0x10;
        const NUM = 0x20;
        const CAPS = 0x40;
        const INSERT = 0x80;
    }
}

impl Flags for Downs {
    type Bits = u8;

    ghost exact = { ⊤ };

    ghost table = { (codes "SYSREQ", 4)
        ∷ (codes "PAUSE", 8)
        ∷ (codes "SCROLL", 16)
        ∷ (codes "NUM", 32)
        ∷ (codes "CAPS", 64)
        ∷ (codes "INSERT", 128)
        ∷ [] };

    ghost set_of = { λ d. d.0 };

    fn flags<'a>() -> &'a [Flag<Downs>] {
        Downs::FLAGS
    }

    fn bits(&self) -> u8 {
        self.0
    }

    fn from_bits_retain(bits: u8) -> Downs {
        Downs(bits)
    }
}
