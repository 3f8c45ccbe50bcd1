//! Jumps, calls and returns.

ghost use Rattle.std.specs.Prelude.{◌≡◌, ◌*◌, ◌<◌, ◌≤◌};
ghost use Rattle.mcs48_isa.specs.Operands.{IsFlow};
ghost use Rattle.mcs48_core.specs.Status.{high_status};
ghost use Rattle.mcs48_core.specs.Flow.{branch, bank_bit, pushed, popped_high, returned, flow};

use crate::levels::Pins;
use crate::processor::Mcu;
use crate::registers::{bit_of, counted, place_in_page, with_pointer};
use mcs48_isa::{FlowOp, Image};

impl Mcu {
    /// The next counter of a jump in the page of the second byte, which is taken if the condition holds.
    #[inline(always)]
    fn jump_if(&self, holds: bool, to: u8, here: u16) -> u16
        requires { here < 4096 }
        ensures next { record self.now { pc = result } ≡ branch holds to (record self.now { pc = here }) }
        ensures counter { result < 4096 }
    {
        if holds {
            place_in_page(here, to)
        } else {
            counted(here)
        }
    }

    /// Bit 11 of a jump or a call.
    pub(crate) fn bank_bit(&self) -> u16
        ensures bit { result ≡ bank_bit self.now }
        ensures small { result < 2 }
    {
        if self.mb && !self.svc { 1 } else { 0 }
    }

    /// The high four bits of the status byte, where they are in it.
    #[inline(always)]
    fn high_bits(&self) -> u8
        ensures bits { result ≡ 16 * high_status self.now }
        ensures within { result ≤ 240 }
    {
        self.psw / 16 * 16
    }

    /// Pushes a counter and the high four bits of the status byte.
    pub(crate) fn push(&mut self, pc: u16)
        requires { pc < 4096 }
        ensures { self.new ≡ record (pushed (record self.old { pc = pc })) { pc = self.old.pc } }
    {
        let at = 8 + 2 * (self.psw % 8) as usize;
        self.ram[at] = (pc % 256) as u8;
        self.ram[at + 1] = self.high_bits() + (pc / 256) as u8;
        self.psw = with_pointer(self.psw, (self.psw % 8 + 1) % 8);
    }

    /// The high byte of the last entry on the stack.
    fn popped_high(&self) -> u8
        ensures { result ≡ popped_high self.now }
    {
        self.ram[9 + 2 * ((self.psw % 8 + 7) % 8) as usize]
    }

    /// Pops the counter.
    fn return_back(&mut self) -> u16
        ensures state { record self.new { pc = result } ≡ returned self.old }
        ensures kept { self.new.pc ≡ self.old.pc }
        ensures counter { result < 4096 }
    {
        let sp = (self.psw % 8 + 7) % 8;
        let low = self.ram[8 + 2 * sp as usize];
        let high = self.ram[9 + 2 * sp as usize];
        self.psw = with_pointer(self.psw, sp);
        (high % 16) as u16 * 256 + low as u16
    }

    /// Makes a jump, a call or a return, with the counter `here`, after its first byte. The answer is the next
    /// counter.
    #[inline(always)]
    pub(crate) fn redirect(&mut self, op: FlowOp, here: u16, image: &Image, pins: &Pins) -> u16
        requires operands { IsFlow op }
        requires within { here < 4096 }
        ensures state { record self.new { pc = result } ≡ flow op image.now.bytes pins.now (record self.old { pc = here }) }
        ensures counter { result < 4096 }
    {
        match op {
            FlowOp::Jmp(to) => 2048 * self.bank_bit() + to,
            FlowOp::Call(to) => {
                self.push(counted(here));
                2048 * self.bank_bit() + to
            }
            FlowOp::Ret => self.return_back(),
            FlowOp::Retr => {
                let high = self.popped_high();
                let next = self.return_back();
                self.set_high_status(high);
                self.svc = false;
                next
            }
            FlowOp::Jmpp => {
                let at = (place_in_page(here, self.a) % 2048) as usize;
                place_in_page(here, image.bytes[at])
            }
            FlowOp::Djnz(r, to) => {
                let left = self.register(r).wrapping_sub(1);
                self.set_register(r, left);
                self.jump_if(left != 0, to, here)
            }
            FlowOp::Jb(b, to) => self.jump_if(bit_of(self.a, b), to, here),
            FlowOp::Jc(to) => self.jump_if(self.carry(), to, here),
            FlowOp::Jnc(to) => self.jump_if(!self.carry(), to, here),
            FlowOp::Jz(to) => self.jump_if(self.a == 0, to, here),
            FlowOp::Jnz(to) => self.jump_if(self.a != 0, to, here),
            FlowOp::Jt0(to) => self.jump_if(pins.t0, to, here),
            FlowOp::Jnt0(to) => self.jump_if(!pins.t0, to, here),
            FlowOp::Jt1(to) => self.jump_if(pins.t1, to, here),
            FlowOp::Jnt1(to) => self.jump_if(!pins.t1, to, here),
            FlowOp::Jf0(to) => self.jump_if(bit_of(self.psw, 5), to, here),
            FlowOp::Jf1(to) => self.jump_if(self.f1, to, here),
            FlowOp::Jtf(to) => {
                let flag = self.tf;
                self.tf = false;
                self.jump_if(flag, to, here)
            }
            FlowOp::Jni(to) => self.jump_if(!pins.int_pin, to, here),
        }
    }
}
