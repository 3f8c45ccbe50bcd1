//! The joint machine as its callers see it.

ghost use Rattle.std.specs.Prelude.{◌≡◌, ◌+◌, ◌<◌, ◌≤◌, ◌^◌, ℕ, IfOk, OnErr, OnOk, Some, true};
ghost use Rattle.int09.specs.Bios.{start};
ghost use Rattle.joint_run.specs.Cycle.{is_let_go, outside_wires};
ghost use Rattle.joint_run.specs.Due.{due_step, ended, machine_after, powered_on, powered_on_from, with_seen, IsJointStep, IsSeen};
ghost use Rattle.joint_run.specs.Edgeless.{without_edges};
ghost use Rattle.joint_run.specs.Filled.{filled};
ghost use Rattle.joint_run.specs.History.{IsFirstOfRun, IsFirstOfRunFrom, IsStepOfRun};
ghost use Rattle.joint_run.specs.Joint.{powered};
ghost use Rattle.joint_run.specs.Sound.{IsSound};
ghost use Rattle.mcs48_core.specs.Leap.{spun};
ghost use Rattle.mcs48_core.specs.Step.{stepped, IsStep};

use crate::due::{Due, Seen};
use crate::machine::Machine;
use crate::outside::Outside;
use board_terms::{Lines, Matrix};
use ctl_core::Controller;
use int09::Bios;
use mcs48_core::{Mcu, Pins, Stuck, reset};
use mcs48_isa::Image;
use std::marker::Model;

/// The keyboard's processor on its board, joined to the controller, the host and INT 09h. A clause sees its parts.
#[derive(Drop)]
pub struct Joint {
    machine: Machine,
}

impl Model for Joint {
    ghost use Rattle.joint_run.specs.declared.machine.Machine.{Machine};

    ghost Value = { Machine };

    ghost view = { λ j. j.machine };

    ghost use Rattle.joint_run.specs.Sound.{IsSound};

    ghost invariant = { λ j. IsSound j.machine };
}

/// The processor after reset, in a part whose data memory, A and T held this byte when it was switched on.
fn reset_filled(fill: u8) -> Mcu
    ensures { result ≡ powered (filled fill) }
{
    let mut mcu = reset();
    mcu.a = fill;
    mcu.t = fill;
    mcu.ram = [fill; 128];
    mcu
}

impl Joint {
    /// The machine at power-on, with this program, with INT 09h at its start and with cleared memory.
    pub fn power_on(image: &Image, bios: Bios) -> Joint
        requires start { bios ≡ start }
        ensures parts { result ≡ powered_on image.now.bytes }
        ensures run { IsFirstOfRun result }
    {
        Joint::power_on_filled(image, bios, 0)
    }

    /// The machine at power-on, with this program and with INT 09h at its start, if data memory, A and T hold this byte.
    pub fn power_on_filled(image: &Image, bios: Bios, fill: u8) -> Joint
        requires start { bios ≡ start }
        ensures parts { result ≡ powered_on_from (filled fill) image.now.bytes }
        ensures run { IsFirstOfRunFrom (filled fill) result }
    {
        Joint {
            machine: Machine {
                image: Image { bytes: image.bytes },
                matrix: Matrix::new(),
                mcu: reset_filled(fill),
                outside: Outside::new(bios),
                cycle: 0,
                steps: 0,
            },
        }
    }

    /// The machine is switched off and on again: it is at power-on, with its own program and the memory that INT 09h has, if
    /// data memory, A and T hold this byte.
    pub fn switch_on(&mut self, fill: u8)
        ensures parts { self.new ≡ powered_on_from (filled fill) self.old.image.bytes }
        ensures run { IsFirstOfRunFrom (filled fill) self.new }
    {
        self.machine.matrix = Matrix::new();
        self.machine.mcu = reset_filled(fill);
        self.machine.outside.switch_on();
        self.machine.cycle = 0;
        self.machine.steps = 0;
    }

    /// The machine is in the state of another from now on, with the memory that INT 09h has.
    pub fn assign(&mut self, other: &Joint)
        ensures same { self.new ≡ other.now }
    {
        self.machine.image.bytes = other.machine.image.bytes;
        self.machine.matrix = other.machine.matrix.copied();
        self.machine.mcu = other.machine.mcu.copied();
        self.machine.outside.assign(&other.machine.outside);
        self.machine.cycle = other.machine.cycle;
        self.machine.steps = other.machine.steps;
    }

    /// The machine of these parts, if they fit together.
    pub fn of_parts(machine: Machine) -> Joint
        requires sound { IsSound machine }
        ensures parts { result ≡ machine }
    {
        Joint { machine }
    }

    /// All parts, which fit together.
    pub fn parts(&self) -> &Machine
        ensures parts { result.now ≡ self.now }
        ensures sound { IsSound self.now }
    {
        &self.machine
    }

    /// A machine of its own in the same state, with this INT 09h, which is in the state of this one's.
    pub fn copied(&self, bios: Bios) -> Joint
        requires same { bios ≡ self.now.outside.desk.bios }
        ensures same { result ≡ self.now }
    {
        Joint {
            machine: Machine {
                image: Image {
                    bytes: self.machine.image.bytes,
                },
                matrix: self.machine.matrix.copied(),
                mcu: self.machine.mcu.copied(),
                outside: self.machine.outside.copied(bios),
                cycle: self.machine.cycle,
                steps: self.machine.steps,
            },
        }
    }

    /// One joint step. The edges are made whose stamp is reached; the processor makes one step; then its cycles pass,
    /// in each of which the controller looks at the wires, the host acts and the controller settles. If the
    /// processor is stuck nothing has changed, and no edge is made.
    pub fn step(&mut self, due: &Due) -> Result<Seen, Stuck>
        requires near { self.old.cycle < 2 ^ 62 }
        ensures step { IsJointStep due.now self.old (due_step due.now self.old) result self.new }
        ensures run { IsStepOfRun due.now self.old result self.new }
        ensures unchanged { OnErr result (self.new ≡ self.old) }
        ensures some { IfOk result (λ seen. 0 < seen.cycles) }
        ensures few { IfOk result (λ seen. seen.cycles < 3) }
    {
        let mut seen = Seen::nothing();
        self.step_into(due, &mut seen)?;
        Ok(seen)
    }

    /// The same step, reported in `seen` in place of what was there, which no longer counts: for a caller that makes many
    /// steps, since no list is made anew. If the processor is stuck, `seen` says nothing of use.
    #[inline(never)]
    pub fn step_into(&mut self, due: &Due, seen: &mut Seen) -> Result<(), Stuck>
        requires near { self.old.cycle < 2 ^ 62 }
        ensures step { IsJointStep due.now self.old (due_step due.now self.old) (with_seen result seen.new) self.new }
        ensures run { IsStepOfRun due.now self.old (with_seen result seen.new) self.new }
        ensures unchanged { OnErr result (self.new ≡ self.old) }
        ensures some { OnOk result (0 < seen.new.cycles) }
        ensures few { OnOk result (seen.new.cycles < 3) }
    {
        self.step_inlined::<3>(due, seen)
    }

    /// The same for a loop that LLVM is to build the whole step into. `SITE`, from 4, is a number that no other place
    /// of the program gives, as for the processor's step.
    #[inline(always)]
    pub fn step_inlined<const SITE: u8>(&mut self, due: &Due, seen: &mut Seen) -> Result<(), Stuck>
        requires near { self.old.cycle < 2 ^ 62 }
        ensures step { IsJointStep due.now self.old (due_step due.now self.old) (with_seen result seen.new) self.new }
        ensures run { IsStepOfRun due.now self.old (with_seen result seen.new) self.new }
        ensures unchanged { OnErr result (self.new ≡ self.old) }
        ensures some { OnOk result (0 < seen.new.cycles) }
        ensures few { OnOk result (seen.new.cycles < 3) }
    {
        self.machine.step::<SITE>(due, seen)
    }

    /// The processor's part of a step alone, with these levels at its pins: no cycle passes, and no step is counted. For a
    /// caller that knows what the cycles come to, or lets them pass by `end_step`. `SITE` is as in `step_inlined`.
    #[inline(always)]
    pub fn step_processor<const SITE: u8>(&mut self, given: Pins) -> Result<u8, Stuck>
        ensures step { IsStep self.old.image.bytes self.old.mcu (stepped self.old.image.bytes given self.old.mcu) result self.new.mcu }
        ensures parts { self.new ≡ record self.old { mcu = self.new.mcu } }
        ensures some { IfOk result (λ cycles. 0 < cycles) }
        ensures few { IfOk result (λ cycles. cycles < 3) }
    {
        self.machine.step_processor::<SITE>(given)
    }

    /// Steps of the processor alone, with these levels at its pins, each of which is a jump to where it is: as many as
    /// there are before an interrupt is due, but at most `most`. Answers how many.
    #[inline(always)]
    pub fn leap_processor(&mut self, given: &Pins, most: u64) -> u64
        ensures few { result ≤ most }
        ensures start { spun 0 self.old.mcu ≡ self.old.mcu }
        ensures steps { (j : ℕ) → j < result → stepped self.old.image.bytes given.now (spun j self.old.mcu)
            ≡ Some (record { cpu = spun (j + 1) self.old.mcu; cycles = 2 }) }
        ensures end { self.new ≡ record self.old { mcu = spun result self.old.mcu } }
    {
        self.machine.leap_processor(given, most)
    }

    /// So many steps, of so many cycles together, are done, whose parts the processor has made, and in whose cycles nothing
    /// changes.
    pub fn count(&mut self, steps: u64, cycles: u64)
        requires each { steps ≤ cycles }
        requires near { self.old.cycle + cycles < 2 ^ 63 }
        ensures counted { self.new ≡ record self.old { cycle = self.old.cycle + cycles; steps = self.old.steps + steps } }
    {
        self.machine.cycle += cycles;
        self.machine.steps += steps;
    }

    /// The cycles of a step pass, 1 or 2, whose part the processor has made, and in which no edge is made. It is reported in
    /// `seen`.
    pub fn end_step(&mut self, cycles: u8, due: &Due, seen: &mut Seen)
        requires near { self.old.cycle < 2 ^ 62 }
        requires some { 0 < cycles }
        requires few { cycles < 3 }
        ensures ended { self.new ≡ machine_after (without_edges due.now) self.old (ended cycles due.now self.old) }
        ensures seen { IsSeen (without_edges due.now) self.old (ended cycles due.now self.old) seen.new }
        ensures cycles { seen.new.cycles ≡ cycles }
    {
        self.machine.end_step(cycles, due, seen);
    }

    /// How many cycles are done; the next step begins with the cycle of this number.
    pub fn cycle(&self) -> u64
        ensures cycle { result ≡ self.now.cycle }
    {
        self.machine.cycle
    }

    /// How many steps are done.
    pub fn steps(&self) -> u64
        ensures steps { result ≡ self.now.steps }
    {
        self.machine.steps
    }

    /// The program.
    pub fn image(&self) -> &Image
        ensures image { result.now ≡ self.now.image }
    {
        &self.machine.image
    }

    /// The processor.
    pub fn mcu(&self) -> &Mcu
        ensures processor { result.now ≡ self.now.mcu }
    {
        &self.machine.mcu
    }

    /// The wires after the last cycle that is done.
    pub fn lines(&self) -> Lines
        ensures wires { result ≡ outside_wires self.now.mcu.p2 self.now.outside }
    {
        let p2 = self.machine.mcu.p2;
        self.machine.outside.wires(p2)
    }

    /// Whether nobody pulls a wire after the last cycle that is done: the keyboard lets both go, and the link is free. Then
    /// both are high. It costs less than to ask for the wires.
    #[inline(always)]
    pub fn is_let_go(&self) -> bool
        ensures let_go { result ≡ is_let_go self.now.mcu.p2 self.now.outside }
        ensures high { result ≡ true → outside_wires self.now.mcu.p2 self.now.outside ≡ record { clk = true; dat = true } }
    {
        let p2 = self.machine.mcu.p2;
        self.machine.outside.is_let_go(p2)
    }

    /// The keys that are down.
    pub fn matrix(&self) -> &Matrix
        ensures matrix { result.now ≡ self.now.matrix }
    {
        &self.machine.matrix
    }

    /// What is outside the processor.
    pub fn outside(&self) -> &Outside
        ensures outside { result.now ≡ self.now.outside }
    {
        &self.machine.outside
    }

    /// INT 09h.
    pub fn bios(&self) -> &Bios
        ensures bios { result.now ≡ self.now.outside.desk.bios }
    {
        &self.machine.outside.desk.bios
    }

    /// The controller's buffers and its command byte.
    pub fn controller(&self) -> &Controller
        ensures controller { result.now ≡ self.now.outside.desk.port.core }
    {
        &self.machine.outside.desk.port.core
    }

    /// The lights that the keyboard shows: Scroll as bit 0, Num as bit 1, Caps as bit 2.
    pub fn lights(&self) -> u8
        ensures lights { result ≡ self.now.outside.shown }
    {
        self.machine.outside.shown
    }
}
