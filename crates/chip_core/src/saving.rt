//! A chip's state, to be kept and gone back to.

ghost use Rattle.std.specs.Prelude.{◌≡◌, Some, is_some};
ghost use Rattle.chip_core.specs.Saves.{loaded, loaded_into, saved_of};

use crate::chip::Chip;
use mcs48_bytes::{processor_bytes, processor_in};

/// The state of a chip but for its program, in one form for all machines: the bytes of the processor, and data memory.
#[repr(C)]
#[derive(Drop)]
pub struct Saved {
    pub processor: [u8; 19],
    pub ram: [u8; 128],
}

impl Chip {
    /// Writes the chip's state. Loaded again it is the same.
    pub fn save(&self, saved: &mut Saved)
        ensures saved { saved.new ≡ saved_of self.now }
        ensures loaded { loaded saved.new ≡ Some self.now.mcu }
    {
        let processor = processor_bytes(&self.mcu);
        let ram = self.mcu.ram;
        saved.processor = processor;
        saved.ram = ram;
    }

    /// Goes to this state; the program stays. Whether it is one: a program counter, a prescaler or a status byte that no
    /// processor has is refused, and then nothing has changed.
    pub fn load(&mut self, saved: &Saved) -> bool
        ensures chip { self.new ≡ loaded_into self.old (loaded saved.now) }
        ensures done { result ≡ is_some (loaded saved.now) }
    {
        match processor_in(&saved.processor, saved.ram) {
            Some(mcu) => {
                self.mcu = mcu;
                true
            }
            None => false,
        }
    }
}
