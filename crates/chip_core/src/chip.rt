//! A processor with its program.

ghost use Rattle.std.specs.Prelude.{◌≡◌, ◌<◌, false, []};
ghost use Rattle.bits.specs.Bits.{bit};
ghost use Rattle.mcs48_core.specs.Status.{IsStatus};
ghost use Rattle.chip_core.specs.Chips.{after, cycles_of, next_of, powered_on, reset_of};

use mcs48_core::{Count, Mcu, Pins, reset};
use mcs48_isa::Image;

/// A processor with its program.
#[derive(Drop)]
pub struct Chip {
    pub image: Image,
    pub mcu: Mcu,
}

/// The processor after reset, in a part whose data memory, A and T held this byte when it was switched on.
fn reset_filled(fill: u8) -> Mcu
    ensures { result ≡ (powered_on fill []).mcu }
{
    let mut mcu = reset();
    mcu.a = fill;
    mcu.t = fill;
    mcu.ram = [fill; 128];
    mcu
}

/// The status byte after reset: both carries stay.
fn reset_status(psw: u8) -> u8
    ensures { IsStatus result (bit 7 psw) (bit 6 psw) false false 1 0 }
{
    psw / 64 * 64 + 8
}

impl Chip {
    /// A chip that was just switched on with this program, and whose data memory, A and T held this byte then.
    pub fn new(program: &[u8; 2048], fill: u8) -> Chip
        ensures { result ≡ powered_on fill program.now }
    {
        Chip {
            image: Image { bytes: *program },
            mcu: reset_filled(fill),
        }
    }

    /// Switches the chip off, and on again with this program; data memory, A and T hold this byte then.
    pub fn power_on(&mut self, program: &[u8; 2048], fill: u8)
        ensures { self.new ≡ powered_on fill program.now }
    {
        self.image.bytes = *program;
        self.mcu = reset_filled(fill);
    }

    /// Pulls the reset pin for a moment. Data memory, A, T, the prescaler, both carries, the timer's request and the latch of
    /// the bus stay (MCS-48 Family User's Manual, reset, says which parts a reset sets).
    pub fn reset(&mut self)
        ensures { self.new ≡ reset_of self.old }
    {
        let mcu = &mut self.mcu;
        mcu.pc = 0;
        mcu.psw = reset_status(mcu.psw);
        mcu.f1 = false;
        mcu.mb = false;
        mcu.tf = false;
        mcu.run = Count::Off;
        mcu.ext_on = false;
        mcu.tim_on = false;
        mcu.svc = false;
        mcu.p1 = 0xff;
        mcu.p2 = 0xff;
        mcu.clk = false;
    }

    /// One step with these levels at the pins: an instruction, or the entry of an interrupt that is due. The answer is its
    /// number of machine cycles, 1 or 2. It is 0 if the byte at the counter begins no instruction; then nothing has changed.
    #[inline(always)]
    pub fn step(&mut self, pins: Pins) -> u8
        ensures cycles { result ≡ cycles_of (next_of pins self.old) }
        ensures after { self.new ≡ after (next_of pins self.old) self.old }
        ensures few { result < 3 }
    {
        match self.mcu.step(&self.image, pins) {
            Ok(cycles) => cycles,
            Err(_) => 0,
        }
    }
}
