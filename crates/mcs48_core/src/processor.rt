//! The processor's state.

ghost use Rattle.std.specs.Prelude.{◌≡◌};

use std::marker::Model;

/// How the timer runs: not at all, on the machine cycles through the prescaler, or on the falls of T1.
#[derive(Clone, Copy, Debug, PartialEq, Eq, Drop)]
pub enum Count {
    Off,
    Timer,
    Counter,
}

/// The state of the processor, the 8049 of the MCS-48 Family User's Manual.
///
/// - `pc`: the program counter, 12 bits. Counting changes the low 11 bits alone.
/// - `a`: the accumulator.
/// - `psw`: the status byte: bit 7 carry, 6 half carry, 5 flag 0, 4 register bank, 3 always 1, 2 to 0 stack pointer.
/// - `f1`: flag 1. `mb`: the memory-bank flip-flop, which is bit 11 of the next JMP or CALL.
/// - `ram`: data memory: 0 to 7 are the registers of bank 0, 8 to 23 the stack, 24 to 31 the registers of bank 1.
/// - `t`: the timer. `pre`: the prescaler, 0 to 31 machine cycles. `tf`: the timer flag. `run`: how the timer runs.
/// - `ext_on`, `tim_on`: external and timer interrupts are enabled. `rq`: a timer request is latched. `svc`: an
///   interrupt is in service.
/// - `p1`, `p2`, `bus`: the output latches.
/// - `clk`: the clock output was enabled, which has no further effect here. `last_t1`: the level of T1 at the last
///   step.
#[derive(Drop)]
pub struct Mcu {
    pub pc: u16,
    pub a: u8,
    pub psw: u8,
    pub f1: bool,
    pub mb: bool,
    pub ram: [u8; 128],
    pub t: u8,
    pub pre: u8,
    pub tf: bool,
    pub run: Count,
    pub ext_on: bool,
    pub tim_on: bool,
    pub rq: bool,
    pub svc: bool,
    pub p1: u8,
    pub p2: u8,
    pub bus: u8,
    pub clk: bool,
    pub last_t1: bool,
}

impl Model for Mcu {
    ghost use Rattle.mcs48_core.specs.Cpu.{Cpu};

    ghost Value = { Cpu };

    ghost use Rattle.mcs48_core.specs.View.{cpu_of, IsSound};

    ghost view = { cpu_of };

    ghost invariant = { IsSound };
}

impl Mcu {
    /// A processor of its own in the same state.
    pub fn copied(&self) -> Mcu
        ensures { result ≡ self.now }
    {
        Mcu {
            pc: self.pc,
            a: self.a,
            psw: self.psw,
            f1: self.f1,
            mb: self.mb,
            ram: self.ram,
            t: self.t,
            pre: self.pre,
            tf: self.tf,
            run: self.run,
            ext_on: self.ext_on,
            tim_on: self.tim_on,
            rq: self.rq,
            svc: self.svc,
            p1: self.p1,
            p2: self.p2,
            bus: self.bus,
            clk: self.clk,
            last_t1: self.last_t1,
        }
    }
}
