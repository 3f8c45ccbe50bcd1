//! One step of the processor.

ghost use Rattle.std.specs.Prelude.{◌≡◌, ◌<◌, IfOk, OnErr};
ghost use Rattle.mcs48_isa.specs.Operands.{IsOp};
ghost use Rattle.mcs48_core.specs.Step.{effect, entered, executed, row_at, stepped, takes_external, takes_timer, IsStep};

use crate::levels::Pins;
use crate::processor::Mcu;
use crate::registers::counted;
use mcs48_isa::{Image, Op, Row, row};

/// The program counter, 12 bits, and the byte there, which begins no instruction.
#[derive(Clone, Copy, Debug, PartialEq, Eq, Drop)]
pub struct Stuck {
    pub pc: u16,
    pub byte: u8,
}

/// Where the service of an external interrupt begins.
const EXTERNAL_ENTRY: u16 = 3;

/// Where the service of a timer interrupt begins.
const TIMER_ENTRY: u16 = 7;

impl Mcu {
    /// Executes an operation, with the counter `here`, after its first byte. The answer is the next counter.
    #[inline(always)]
    fn execute(&mut self, op: Op, here: u16, image: &Image, pins: &Pins) -> u16
        requires operands { IsOp op }
        requires within { here < 4096 }
        ensures state { record self.new { pc = result } ≡ effect op image.now.bytes pins.now (record self.old { pc = here }) }
        ensures counter { result < 4096 }
    {
        match op {
            Op::Moves(op) => self.make_move(op, here, image),
            Op::Alu(op) => self.operate(op, here),
            Op::Unary(op) => self.change(op, here),
            Op::Flow(op) => self.redirect(op, here, image, pins),
            Op::PortIo(op) => self.transfer(op, here, pins),
            Op::Control(op) => self.control(op, here),
        }
    }

    /// Whether an external interrupt is due.
    #[inline(always)]
    pub(crate) fn takes_external(&self, pins: &Pins) -> bool
        ensures { result ≡ takes_external pins.now self.now }
    {
        !self.svc && self.ext_on && !pins.int_pin
    }

    /// Whether an interrupt of the timer is due, if no external one is. Most often none is requested.
    #[inline(always)]
    pub fn takes_timer(&self) -> bool
        ensures { result ≡ takes_timer self.now }
    {
        self.rq && !self.svc && self.tim_on
    }

    /// Enters the service of an interrupt: a step of 2 cycles that executes no instruction.
    #[cold]
    #[inline(never)]
    fn enter(&mut self, at: u16, pins: &Pins) -> u8
        requires { at < 2048 }
        ensures entered { self.new ≡ (entered at pins.now self.old).cpu }
        ensures cycles { result ≡ 2 }
    {
        let before = self.run;
        self.push(self.pc);
        self.pc = at;
        self.svc = true;
        self.after_timer(before, 2, pins);
        2
    }

    /// Executes the instruction at the counter, and then the timer's part. The answer is as that of `step`.
    #[inline(always)]
    fn instruction<const SITE: u8>(&mut self, image: &Image, pins: &Pins) -> Result<u8, Stuck>
        ensures step { IsStep image.now.bytes self.old (executed (row_at image.now.bytes self.old.pc) image.now.bytes pins.now self.old) result self.new }
        ensures unchanged { OnErr result (self.new ≡ self.old) }
        ensures some { IfOk result (λ cycles. 0 < cycles) }
        ensures few { IfOk result (λ cycles. cycles < 3) }
    {
        let pc = self.pc;
        let byte = image.bytes[(pc % 2048) as usize];
        let second = image.bytes[((pc + 1) % 2048) as usize];
        let before = self.run;
        let here = counted(pc);
        match row::<SITE>(byte, second) {
            Row::Empty => Err(Stuck { pc, byte }),
            Row::Short(op) => {
                self.pc = self.execute(op, here, image, pins);
                self.after_timer(before, 1, pins);
                Ok(1)
            }
            Row::Slow(op) => {
                self.pc = self.execute(op, here, image, pins);
                self.after_timer(before, 2, pins);
                Ok(2)
            }
            Row::Double(op) => {
                self.pc = self.execute(op, here, image, pins);
                self.after_timer(before, 2, pins);
                Ok(2)
            }
        }
    }

    /// One step with these levels at the pins: the entry of an interrupt that is due, or else the instruction at the
    /// counter; then the timer. The answer is the number of machine cycles, 1 or 2. If no interrupt is due and the
    /// byte at the counter begins no instruction, the answer is `Stuck` and nothing has changed.
    ///
    /// An external interrupt comes before one of the timer, and none is due while one is in service (MCS-48 Family
    /// User's Manual, instruction set, interrupts and timer; the order within a step is our own).
    #[inline(always)]
    pub fn step(&mut self, image: &Image, pins: Pins) -> Result<u8, Stuck>
        ensures step { IsStep image.now.bytes self.old (stepped image.now.bytes pins self.old) result self.new }
        ensures unchanged { OnErr result (self.new ≡ self.old) }
        ensures some { IfOk result (λ cycles. 0 < cycles) }
        ensures few { IfOk result (λ cycles. cycles < 3) }
    {
        self.step_inlined::<1>(image, pins)
    }

    /// The same step for a second place that makes many. `SITE`, from 2, is a number that no other place of the program
    /// gives: so each place has a copy of the opcode table, and LLVM builds the whole step into it.
    #[inline(always)]
    pub fn step_inlined<const SITE: u8>(&mut self, image: &Image, pins: Pins) -> Result<u8, Stuck>
        ensures step { IsStep image.now.bytes self.old (stepped image.now.bytes pins self.old) result self.new }
        ensures unchanged { OnErr result (self.new ≡ self.old) }
        ensures some { IfOk result (λ cycles. 0 < cycles) }
        ensures few { IfOk result (λ cycles. cycles < 3) }
    {
        if self.takes_external(&pins) {
            return Ok(self.enter(EXTERNAL_ENTRY, &pins));
        }
        if self.takes_timer() {
            self.rq = false;
            return Ok(self.enter(TIMER_ENTRY, &pins));
        }
        self.instruction::<SITE>(image, &pins)
    }
}
