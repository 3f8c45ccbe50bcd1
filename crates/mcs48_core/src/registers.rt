//! The program counter, the flags, the registers of the selected bank and the data byte that one points to.

ghost use Rattle.std.specs.Prelude.{◌≡◌, ◌<◌, ◌/◌, ◌%◌};
ghost use Rattle.bits.specs.Bits.{bit};
ghost use Rattle.mcs48_core.specs.Status.{IsStatus, psw_of, with_high_status};
ghost use Rattle.mcs48_core.specs.Registers.{counted, in_page, bank_start, register, with_register, indirect};
ghost use Rattle.mcs48_core.specs.Registers.{with_indirect};

use crate::processor::Mcu;

/// Bit k of a byte.
pub(crate) fn bit_of(x: u8, k: u8) -> bool
    requires { k < 8 }
    ensures { result ≡ bit k x }
{
    x >> k & 1 == 1
}

/// The status byte with the high four bits of a byte and this stack pointer.
pub(crate) fn status_of(high: u8, sp: u8) -> u8
    requires { sp < 8 }
    ensures one { result / 8 % 2 ≡ 1 }
    ensures stack { result % 8 ≡ sp }
    ensures carry { bit 7 result ≡ bit 7 high }
    ensures half_carry { bit 6 result ≡ bit 6 high }
    ensures flag_0 { bit 5 result ≡ bit 5 high }
    ensures bank { bit 4 result ≡ bit 4 high }
{
    high / 16 * 16 + 8 + sp
}

/// The status byte with this carry.
#[inline(always)]
fn with_carry(psw: u8, on: bool) -> u8
    ensures { IsStatus result on (bit 6 psw) (bit 5 psw) (bit 4 psw) (psw / 8 % 2) (psw % 8) }
{
    psw % 128 + if on { 128 } else { 0 }
}

/// The status byte with this half carry.
#[inline(always)]
fn with_half_carry(psw: u8, on: bool) -> u8
    ensures { IsStatus result (bit 7 psw) on (bit 5 psw) (bit 4 psw) (psw / 8 % 2) (psw % 8) }
{
    psw / 128 * 128 + psw % 64 + if on { 64 } else { 0 }
}

/// The status byte with this flag 0.
#[inline(always)]
fn with_flag_0(psw: u8, on: bool) -> u8
    ensures { IsStatus result (bit 7 psw) (bit 6 psw) on (bit 4 psw) (psw / 8 % 2) (psw % 8) }
{
    psw / 64 * 64 + psw % 32 + if on { 32 } else { 0 }
}

/// The status byte with bank 1 selected, or bank 0.
#[inline(always)]
fn with_bank(psw: u8, on: bool) -> u8
    ensures { IsStatus result (bit 7 psw) (bit 6 psw) (bit 5 psw) on (psw / 8 % 2) (psw % 8) }
{
    psw / 32 * 32 + psw % 16 + if on { 16 } else { 0 }
}

/// The status byte with this stack pointer.
#[inline(always)]
pub(crate) fn with_pointer(psw: u8, sp: u8) -> u8
    requires { sp < 8 }
    ensures { IsStatus result (bit 7 psw) (bit 6 psw) (bit 5 psw) (bit 4 psw) (psw / 8 % 2) sp }
{
    psw / 8 * 8 + sp
}

/// The counter one byte on; bit 11 stays.
pub(crate) fn counted(pc: u16) -> u16
    requires { pc < 4096 }
    ensures count { result ≡ counted pc }
    ensures within { result < 4096 }
{
    pc / 2048 * 2048 + (pc + 1) % 2048
}

/// The place n in the page that the counter is in.
pub(crate) fn place_in_page(pc: u16, n: u8) -> u16
    requires { pc < 4096 }
    ensures place { result ≡ in_page pc n }
    ensures within { result < 4096 }
{
    pc / 256 * 256 + n as u16
}

impl Mcu {
    /// The status byte.
    pub(crate) fn status(&self) -> u8
        ensures { result ≡ psw_of self.now }
    {
        self.psw
    }

    /// The carry.
    pub(crate) fn carry(&self) -> bool
        ensures { result ≡ self.now.c }
    {
        bit_of(self.psw, 7)
    }

    /// Sets the carry.
    pub(crate) fn set_carry(&mut self, on: bool)
        ensures { self.new ≡ record self.old { c = on } }
    {
        self.psw = with_carry(self.psw, on);
    }

    /// Sets the half carry.
    pub(crate) fn set_half_carry(&mut self, on: bool)
        ensures { self.new ≡ record self.old { ac = on } }
    {
        self.psw = with_half_carry(self.psw, on);
    }

    /// Sets flag 0.
    pub(crate) fn set_flag_0(&mut self, on: bool)
        ensures { self.new ≡ record self.old { f0 = on } }
    {
        self.psw = with_flag_0(self.psw, on);
    }

    /// The flags and the bank from the high four bits of a byte.
    pub(crate) fn set_high_status(&mut self, high: u8)
        ensures { self.new ≡ with_high_status high self.old }
    {
        self.psw = status_of(high, self.psw % 8);
    }

    /// Selects bank 1 or bank 0.
    pub(crate) fn set_bank(&mut self, on: bool)
        ensures { self.new ≡ record self.old { rb = on } }
    {
        self.psw = with_bank(self.psw, on);
    }

    /// Where the selected bank begins in data memory.
    fn bank_start(&self) -> usize
        ensures { result ≡ bank_start self.now.rb }
    {
        if bit_of(self.psw, 4) { 24 } else { 0 }
    }

    /// Rr, of the selected bank.
    pub fn register(&self, r: u8) -> u8
        requires { r < 8 }
        ensures { result ≡ register r self.now }
    {
        self.ram[self.bank_start() + r as usize]
    }

    /// Writes Rr.
    pub(crate) fn set_register(&mut self, r: u8, v: u8)
        requires { r < 8 }
        ensures { self.new ≡ with_register r v self.old }
    {
        let at = self.bank_start() + r as usize;
        self.ram[at] = v;
    }

    /// @Ri: the data byte at the low seven bits of Ri.
    pub(crate) fn indirect(&self, i: u8) -> u8
        requires { i < 2 }
        ensures { result ≡ indirect i self.now }
    {
        self.ram[(self.register(i) % 128) as usize]
    }

    /// Writes @Ri.
    pub(crate) fn set_indirect(&mut self, i: u8, v: u8)
        requires { i < 2 }
        ensures { self.new ≡ with_indirect i v self.old }
    {
        let at = (self.register(i) % 128) as usize;
        self.ram[at] = v;
    }
}
