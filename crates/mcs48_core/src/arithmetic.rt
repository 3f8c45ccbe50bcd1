//! The operations of the accumulator, the registers and the flags.

ghost use Rattle.std.specs.Prelude.{◌≡◌, ◌<◌, ◌+◌, ◌*◌, ◌/◌, ◌%◌};
ghost use Rattle.mcs48_isa.specs.Operands.{IsAlu, IsUnary};
ghost use Rattle.mcs48_core.specs.Status.{digit};
ghost use Rattle.mcs48_core.specs.Arithmetic.{with_sum, added, added_with_carry, alu, adjusted, unary};

use crate::processor::Mcu;
use crate::registers::{bit_of, counted};
use mcs48_isa::{AluOp, UnaryOp};

impl Mcu {
    /// Puts a sum into A and sets both carry flags, the half carry by the sum of the low digits.
    fn set_sum(&mut self, sum: u16, low: u8)
        ensures { self.new ≡ with_sum sum low self.old }
    {
        self.a = (sum % 256) as u8;
        self.set_carry(sum >= 256);
        self.set_half_carry(low >= 16);
    }

    /// ADD.
    fn add(&mut self, x: u8)
        ensures { self.new ≡ added x self.old }
    {
        self.set_sum(self.a as u16 + x as u16, self.a % 16 + x % 16);
    }

    /// ADDC.
    fn add_with_carry(&mut self, x: u8)
        ensures { self.new ≡ added_with_carry x self.old }
    {
        let carry = self.carry() as u8;
        let sum = self.a as u16 + x as u16 + carry as u16;
        self.set_sum(sum, self.a % 16 + x % 16 + carry);
    }

    /// Does an operation of A with an operand, with the counter `here`, after its first byte. The answer is the next
    /// counter.
    #[inline(always)]
    pub(crate) fn operate(&mut self, op: AluOp, here: u16) -> u16
        requires operands { IsAlu op }
        requires within { here < 4096 }
        ensures state { record self.new { pc = result } ≡ alu op (record self.old { pc = here }) }
        ensures counter { result < 4096 }
    {
        match op {
            AluOp::AddR(r) => self.add(self.register(r)),
            AluOp::AddI(i) => self.add(self.indirect(i)),
            AluOp::AddN(n) => {
                self.add(n);
                return counted(here);
            }
            AluOp::AddcR(r) => self.add_with_carry(self.register(r)),
            AluOp::AddcI(i) => self.add_with_carry(self.indirect(i)),
            AluOp::AddcN(n) => {
                self.add_with_carry(n);
                return counted(here);
            }
            AluOp::AnlR(r) => self.a &= self.register(r),
            AluOp::AnlI(i) => self.a &= self.indirect(i),
            AluOp::AnlN(n) => {
                self.a &= n;
                return counted(here);
            }
            AluOp::OrlR(r) => self.a |= self.register(r),
            AluOp::OrlI(i) => self.a |= self.indirect(i),
            AluOp::OrlN(n) => {
                self.a |= n;
                return counted(here);
            }
            AluOp::XrlR(r) => self.a ^= self.register(r),
            AluOp::XrlI(i) => self.a ^= self.indirect(i),
            AluOp::XrlN(n) => {
                self.a ^= n;
                return counted(here);
            }
        }
        here
    }

    /// DA A: the decimal adjustment after an addition of two decimal numbers.
    fn adjust(&mut self)
        ensures { self.new ≡ adjusted self.old }
    {
        let low = self.a % 16 > 9 || bit_of(self.psw, 6);
        let sum = self.a as u16 + if low { 0x06 } else { 0 };
        if sum % 256 / 16 > 9 || self.carry() || sum >= 256 {
            self.a = ((sum + 0x60) % 256) as u8;
            self.set_carry(true);
        } else {
            self.a = (sum % 256) as u8;
        }
    }

    /// Turns A left, with this bit to bit 0.
    fn turn_left(&mut self, low: bool)
        ensures { self.new ≡ record self.old { a = (2 * self.old.a + digit low) % 256 } }
    {
        self.a = self.a % 128 * 2 + low as u8;
    }

    /// Turns A right, with this bit to bit 7.
    fn turn_right(&mut self, high: bool)
        ensures { self.new ≡ record self.old { a = 128 * digit high + self.old.a / 2 } }
    {
        self.a = self.a / 2 + if high { 128 } else { 0 };
    }

    /// Does an operation on one value or flag, with the counter `here`, after its byte. The answer is the next
    /// counter.
    #[inline(always)]
    pub(crate) fn change(&mut self, op: UnaryOp, here: u16) -> u16
        requires operands { IsUnary op }
        requires within { here < 4096 }
        ensures state { record self.new { pc = result } ≡ unary op (record self.old { pc = here }) }
        ensures counter { result < 4096 }
    {
        match op {
            UnaryOp::IncA => self.a = self.a.wrapping_add(1),
            UnaryOp::IncR(r) => self.set_register(r, self.register(r).wrapping_add(1)),
            UnaryOp::IncI(i) => self.set_indirect(i, self.indirect(i).wrapping_add(1)),
            UnaryOp::DecA => self.a = self.a.wrapping_sub(1),
            UnaryOp::DecR(r) => self.set_register(r, self.register(r).wrapping_sub(1)),
            UnaryOp::ClrA => self.a = 0,
            UnaryOp::CplA => self.a = !self.a,
            UnaryOp::DaA => self.adjust(),
            UnaryOp::SwapA => self.a = self.a % 16 * 16 + self.a / 16,
            UnaryOp::RlA => self.turn_left(bit_of(self.a, 7)),
            UnaryOp::RlcA => {
                let out = bit_of(self.a, 7);
                self.turn_left(self.carry());
                self.set_carry(out);
            }
            UnaryOp::RrA => self.turn_right(bit_of(self.a, 0)),
            UnaryOp::RrcA => {
                let out = bit_of(self.a, 0);
                self.turn_right(self.carry());
                self.set_carry(out);
            }
            UnaryOp::ClrC => self.set_carry(false),
            UnaryOp::CplC => self.set_carry(!self.carry()),
            UnaryOp::ClrF0 => self.set_flag_0(false),
            UnaryOp::CplF0 => self.set_flag_0(!bit_of(self.psw, 5)),
            UnaryOp::ClrF1 => self.f1 = false,
            UnaryOp::CplF1 => self.f1 = !self.f1,
        }
        here
    }
}
