//! A jump to itself, made many times at once.

ghost use Rattle.std.specs.Prelude.{◌≡◌, ◌<◌, ◌≤◌, ◌+◌, ◌*◌, ℕ, true, false, Some, IfSome};
ghost use Rattle.mcs48_isa.specs.declared.operation.FlowOp.TheVariants.{Jmp};
ghost use Rattle.mcs48_isa.specs.declared.operation.Op.TheVariants.{Flow};
ghost use Rattle.mcs48_core.specs.declared.processor.Count.TheVariants.{Timer};
ghost use Rattle.mcs48_core.specs.Flow.{bank_bit};
ghost use Rattle.mcs48_core.specs.Leap.{elapsed, spun};
ghost use Rattle.mcs48_core.specs.Step.{row_at, stepped, takes_external, takes_timer};

use crate::levels::Pins;
use crate::processor::{Count, Mcu};
use mcs48_isa::{FlowOp, Image, Op, Row, row};

/// Where the JMP at this counter leads within its bank, if there is one.
#[inline(always)]
fn jump_at(image: &Image, pc: u16) -> Option<u16>
    requires { pc < 4096 }
    ensures row { IfSome result (λ to. row_at image.now.bytes pc ≡ Some (record { op = Flow (Jmp to); len = 2; cycles = 2 })) }
    ensures within { IfSome result (λ to. to < 2048) }
{
    let byte = image.bytes[(pc % 2048) as usize];
    let second = image.bytes[((pc + 1) % 2048) as usize];
    match row::<5>(byte, second) {
        Row::Double(Op::Flow(FlowOp::Jmp(to))) => Some(to),
        _ => None,
    }
}

impl Mcu {
    /// Whether a JMP at the counter to this place of its bank leads to where the processor is, and the next step
    /// makes it: no interrupt is due. T1 is as at the last step.
    fn stays(&self, to: u16, pins: &Pins) -> bool
        requires { to < 2048 }
        ensures place { result ≡ true → 2048 * bank_bit self.now + to ≡ self.now.pc }
        ensures no_external { result ≡ true → takes_external pins.now self.now ≡ false }
        ensures no_timer { result ≡ true → takes_timer self.now ≡ false }
        ensures level { result ≡ true → self.now.last_t1 ≡ pins.now.t1 }
    {
        if 2048 * self.bank_bit() + to != self.pc {
            return false;
        }
        if self.takes_external(pins) || self.takes_timer() {
            return false;
        }
        self.last_t1 == pins.t1
    }

    /// The timer goes on by jumps to where the processor is, two cycles each, as many as there are before it
    /// overflows, but at most so many. Answers how many.
    fn spin(&mut self, most: u64) -> u64
        ensures few { result ≤ most }
        ensures short { self.old.run ≡ Timer → elapsed Timer result self.old < 8192 }
        ensures spun { self.new ≡ spun result self.old }
    {
        match self.run {
            Count::Off => most,
            Count::Timer => {
                let done = self.t as u64 * 32 + self.pre as u64;
                let jumps = most.min((8191 - done) / 2);
                let sum = done + 2 * jumps;
                self.t = (sum / 32) as u8;
                self.pre = (sum % 32) as u8;
                jumps
            }
            Count::Counter => most,
        }
    }

    /// If the next step, with these levels at the pins, is a jump to where the processor is, so many steps are
    /// made at once, at most `most`: as long as no interrupt is due and the timer doesn't overflow. Each takes two
    /// cycles, and changes the timer alone. Answers how many were made.
    #[inline(always)]
    pub fn leap(&mut self, image: &Image, pins: &Pins, most: u64) -> u64
        ensures few { result ≤ most }
        ensures start { spun 0 self.old ≡ self.old }
        ensures steps { (j : ℕ) → j < result
            → stepped image.now.bytes pins.now (spun j self.old) ≡ Some (record { cpu = spun (j + 1) self.old; cycles = 2 }) }
        ensures end { self.new ≡ spun result self.old }
    {
        let Some(to) = jump_at(image, self.pc) else {
            return 0;
        };
        if !self.stays(to, pins) {
            return 0;
        }
        self.spin(most)
    }
}
