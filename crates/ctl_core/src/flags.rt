//! The bits of the status and of the command byte.

ghost use Rattle.std.specs.Prelude.{⊤, ◌≡◌, [], ◌∷◌, codes};

use bitflags::{Flag, Flags, bitflag_items};

/// The status, as a read of port 64h gives it. Bits 5 and 6, which report time-outs, are never set.
#[derive(Clone, Copy, PartialEq, Eq, Debug)]
pub struct Status(u8);

bitflag_items! {
    impl Status: u8 {
        const OUTPUT_FULL = 0x01;
        const INPUT_FULL = 0x02;
        const SYSTEM = 0x04;
        const COMMAND = 0x08;
        const UNLOCKED = 0x10;
        const PARITY = 0x80;
    }
}

impl Flags for Status {
    type Bits = u8;

    ghost exact = { ⊤ };

    ghost table = { (codes "OUTPUT_FULL", 0x01) ∷ (codes "INPUT_FULL", 0x02) ∷ (codes "SYSTEM", 0x04) ∷ (codes "COMMAND", 0x08)
        ∷ (codes "UNLOCKED", 0x10) ∷ (codes "PARITY", 0x80) ∷ [] };

    ghost set_of = { λ status. status.0 };

    fn flags<'a>() -> &'a [Flag<Status>] {
        Status::FLAGS
    }

    fn bits(&self) -> u8 {
        self.0
    }

    fn from_bits_retain(bits: u8) -> Status {
        Status(bits)
    }
}

/// The command byte. Bits without a name are kept as they were written.
#[derive(Clone, Copy, PartialEq, Eq, Debug)]
pub struct CommandByte(u8);

bitflag_items! {
    impl CommandByte: u8 {
        const INTERRUPT = 0x01;
        const SYSTEM = 0x04;
        const OVERRIDE = 0x08;
        const DISABLE = 0x10;
        const PC_MODE = 0x20;
        const TRANSLATE = 0x40;
    }
}

impl Flags for CommandByte {
    type Bits = u8;

    ghost exact = { ⊤ };

    ghost table = { (codes "INTERRUPT", 0x01) ∷ (codes "SYSTEM", 0x04) ∷ (codes "OVERRIDE", 0x08) ∷ (codes "DISABLE", 0x10)
        ∷ (codes "PC_MODE", 0x20) ∷ (codes "TRANSLATE", 0x40) ∷ [] };

    ghost set_of = { λ command_byte. command_byte.0 };

    fn flags<'a>() -> &'a [Flag<CommandByte>] {
        CommandByte::FLAGS
    }

    fn bits(&self) -> u8 {
        self.0
    }

    fn from_bits_retain(bits: u8) -> CommandByte {
        CommandByte(bits)
    }
}
