//! For how long nothing changes that is seen of the keyboard.

ghost use Rattle.std.specs.Prelude.{◌≡◌, ◌≤◌, ◌<◌, true, false, IsSome, ◌↔◌};
ghost use Rattle.chip_core.specs.Chips.{after, cycles_of, next_of};
ghost use Rattle.joint_run.specs.Joint.{latch_of, lights_of};
ghost use Rattle.kbd_half.specs.Keyboards.{pins_at};
ghost use Rattle.kbd_half.specs.Rests.{RestsFor, joined};

use crate::keyboard::{KbdHalf, driven, pins};
use board_terms::{Lines, Matrix};
use chip_core::Chip;
use mcs48_core::Mcu;

/// The levels of the wires, by what the two sides drive.
#[inline(always)]
fn joined(ours: Lines, others: Lines) -> Lines
    ensures { result ≡ joined ours others }
{
    Lines {
        clk: ours.clk && others.clk,
        dat: ours.dat && others.dat,
    }
}

/// Whether a latch of port 2 drives the levels and lights the lamps that another one does.
#[inline(always)]
fn is_alike(p2: u8, first: u8) -> bool
    ensures levels { result ≡ true → latch_of p2 ≡ latch_of first }
    ensures lights { result ≡ true → lights_of p2 ≡ lights_of first }
    ensures other { result ≡ false → latch_of p2 ≡ latch_of first → lights_of p2 ≡ lights_of first → ⊥ }
{
    p2 == first || driven(p2) == driven(first) && joint_run::lights(p2) == joint_run::lights(first)
}

/// One step of a processor in the place of the chip's, while the other side drives these levels. Answers its cycles, or 0 if
/// the processor is stuck.
#[inline(always)]
fn step_ahead(mcu: &mut Mcu, chip: &Chip, matrix: &Matrix, others: Lines) -> u8
    ensures cycles { result ≡ cycles_of (next_of (pins_at (joined (latch_of mcu.old.p2) others) matrix.now mcu.old.p1)
        (record chip.now { mcu = mcu.old })) }
    ensures after { record chip.now { mcu = mcu.new } ≡ after (next_of (pins_at (joined (latch_of mcu.old.p2) others)
        matrix.now mcu.old.p1) (record chip.now { mcu = mcu.old })) (record chip.now { mcu = mcu.old }) }
    ensures stuck { 0 < result ↔ IsSome (next_of (pins_at (joined (latch_of mcu.old.p2) others) matrix.now mcu.old.p1)
        (record chip.now { mcu = mcu.old })) }
    ensures few { result < 3 }
{
    let given = pins(matrix, mcu.p1, joined(driven(mcu.p2), others));
    match mcu.step_inlined::<14>(&chip.image, given) {
        Ok(cycles) => cycles,
        Err(_) => 0,
    }
}

/// Whether a step of so many cycles can be made, fits in these, and leaves a latch of port 2 that is alike to the first.
#[inline(always)]
fn rests_on(taken: u32, room: u32, p2: u8, first: u8) -> bool
    ensures made { result ≡ true → 0 < taken }
    ensures fits { result ≡ true → taken ≤ room }
    ensures levels { result ≡ true → latch_of p2 ≡ latch_of first }
    ensures lights { result ≡ true → lights_of p2 ≡ lights_of first }
    ensures other { result ≡ false → 0 < taken → taken ≤ room → latch_of p2 ≡ latch_of first
        → lights_of p2 ≡ lights_of first → ⊥ }
{
    0 < taken && taken <= room && is_alike(p2, first)
}

impl KbdHalf {
    /// For how many cycles, at most `most`, the keyboard by itself drives the levels and shows the lights of now, if no key
    /// moves and the other side drives these levels all the while. They are those of whole steps: the next step can't be
    /// made, ends after more than `most` cycles, or changes what is seen. The keyboard stays as it is.
    pub fn rests(&self, others: Lines, most: u32) -> u32
        ensures rests { RestsFor others most self.now result }
        ensures within { result ≤ most }
    {
        let mut ahead = self.chip.mcu.copied();
        let first = ahead.p2;
        let mut cycles = 0;
        'steps: loop {
            let taken = u32::from(step_ahead(&mut ahead, &self.chip, &self.matrix, others));
            if !rests_on(taken, most - cycles, ahead.p2, first) {
                return cycles;
            }
            cycles += taken;
        }
    }
}
