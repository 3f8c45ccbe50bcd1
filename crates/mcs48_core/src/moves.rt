//! The data moves.

ghost use Rattle.std.specs.Prelude.{◌≡◌, ◌<◌, ◌%◌};
ghost use Rattle.mcs48_isa.specs.Operands.{IsMove};
ghost use Rattle.mcs48_core.specs.Moves.{digits_of, move};
ghost use Rattle.mcs48_core.specs.Status.{with_high_status};

use crate::processor::Mcu;
use crate::registers::{counted, place_in_page, status_of};
use mcs48_isa::{Image, MoveOp};

/// The high digit of one byte with the low digit of another.
fn digits_of(high: u8, low: u8) -> u8
    ensures { result ≡ digits_of high low }
{
    high / 16 * 16 + low % 16
}

impl Mcu {
    /// Writes the status byte; its bit 3 stays 1.
    fn set_status(&mut self, x: u8)
        ensures { self.new ≡ record (with_high_status x self.old) { sp = x % 8 } }
    {
        self.psw = status_of(x, x % 8);
    }

    /// Makes a data move, with the counter `here`, after its first byte. The answer is the next counter.
    #[inline(always)]
    pub(crate) fn make_move(&mut self, op: MoveOp, here: u16, image: &Image) -> u16
        requires operands { IsMove op }
        requires within { here < 4096 }
        ensures state { record self.new { pc = result } ≡ move op image.now.bytes (record self.old { pc = here }) }
        ensures counter { result < 4096 }
    {
        match op {
            MoveOp::MovAN(n) => {
                self.a = n;
                return counted(here);
            }
            MoveOp::MovAR(r) => self.a = self.register(r),
            MoveOp::MovAI(i) => self.a = self.indirect(i),
            MoveOp::MovRA(r) => self.set_register(r, self.a),
            MoveOp::MovIA(i) => self.set_indirect(i, self.a),
            MoveOp::MovRN(r, n) => {
                self.set_register(r, n);
                return counted(here);
            }
            MoveOp::MovIN(i, n) => {
                self.set_indirect(i, n);
                return counted(here);
            }
            MoveOp::MovAPsw => self.a = self.status(),
            MoveOp::MovPswA => self.set_status(self.a),
            MoveOp::MovAT => self.a = self.t,
            MoveOp::MovTA => self.t = self.a,
            MoveOp::XchR(r) => {
                let value = self.register(r);
                self.set_register(r, self.a);
                self.a = value;
            }
            MoveOp::XchI(i) => {
                let value = self.indirect(i);
                self.set_indirect(i, self.a);
                self.a = value;
            }
            MoveOp::XchdI(i) => {
                let value = self.indirect(i);
                self.set_indirect(i, digits_of(value, self.a));
                self.a = digits_of(self.a, value);
            }
            MoveOp::Movp => {
                let at = (place_in_page(here, self.a) % 2048) as usize;
                self.a = image.bytes[at];
            }
            MoveOp::Movp3 => self.a = image.bytes[0x300 + self.a as usize],
            MoveOp::MovxAI(_) => self.a = 0xff,
            MoveOp::MovxIA(_) => {}
        }
        here
    }
}
