//! Quiet steps, one after another.

ghost use Rattle.std.specs.Prelude.{◌≡◌, ◌+◌, ◌*◌, ◌<◌, ◌≤◌, ◌^◌, ℕ, IfOk, Some};
ghost use Rattle.joint_glide.specs.Calls.{pins_now};
ghost use Rattle.joint_glide.specs.Uneventful.{is_at, seen_uneventfully, HasStretched, IsStretchedFar};
ghost use Rattle.joint_glide.specs.Still.{IsStillTo};
ghost use Rattle.joint_run.specs.Cycle.{outside_wires};
ghost use Rattle.mcs48_core.specs.Leap.{spun};
ghost use Rattle.mcs48_core.specs.Step.{stepped, IsStep};

use board_terms::Lines;
use joint_run::{Due, Joint, Seen};
use mcs48_core::{Pins, Stuck};

/// The levels that the processor reads, with the wires at these.
#[inline(always)]
fn pins(joint: &Joint, line: Lines) -> Pins
    requires line { line ≡ outside_wires joint.now.mcu.p2 joint.now.outside }
    ensures { result ≡ pins_now joint.now }
{
    let p1 = joint.mcu().p1;
    Pins {
        p1: 0xff,
        p2: 0xff,
        bus: joint.matrix().rows(p1),
        t0: line.clk,
        t1: line.dat,
        int_pin: true,
    }
}

/// The processor's part of a step, with the wires at these levels. The whole step is built into this place.
#[inline(always)]
fn call(joint: &mut Joint, line: Lines) -> Result<u8, Stuck>
    requires line { line ≡ outside_wires joint.old.mcu.p2 joint.old.outside }
    ensures step { IsStep joint.old.image.bytes joint.old.mcu (stepped joint.old.image.bytes (pins_now joint.old) joint.old.mcu) result joint.new.mcu }
    ensures parts { joint.new ≡ record joint.old { mcu = joint.new.mcu } }
    ensures some { IfOk result (λ cycles. 0 < cycles) }
    ensures few { IfOk result (λ cycles. cycles < 3) }
{
    let given = pins(joint, line);
    joint.step_processor::<6>(given)
}

/// Jumps to where the processor is, in less cycles than there is room for. Answers how many.
#[inline(always)]
fn leap(joint: &mut Joint, line: Lines, room: u64) -> u64
    requires line { line ≡ outside_wires joint.old.mcu.p2 joint.old.outside }
    ensures few { 2 * result ≤ room }
    ensures start { spun 0 joint.old.mcu ≡ joint.old.mcu }
    ensures steps { (j : ℕ) → j < result → stepped joint.old.image.bytes (pins_now joint.old) (spun j joint.old.mcu)
        ≡ Some (record { cpu = spun (j + 1) joint.old.mcu; cycles = 2 }) }
    ensures end { joint.new ≡ record joint.old { mcu = spun result joint.old.mcu } }
{
    let given = pins(joint, line);
    joint.leap_processor(&given, room / 2)
}

/// The latch of port 2.
#[inline(always)]
fn port_2(joint: &Joint) -> u8
    ensures { result ≡ joint.now.mcu.p2 }
{
    joint.mcu().p2
}

/// The program counter.
#[inline(always)]
fn counter(joint: &Joint) -> u16
    ensures { result ≡ joint.now.mcu.pc }
{
    joint.mcu().pc
}

/// Whether the counter is at the tick's place.
#[inline(always)]
fn is_at(joint: &Joint, tick_pc: u16) -> bool
    ensures { result ≡ is_at tick_pc joint.now }
{
    counter(joint) % 2048 == tick_pc
}

/// A step of so many cycles was quiet, with the wires at these levels.
fn report(seen: &mut Seen, cycles: u8, line: Lines)
    ensures { seen.new ≡ seen_uneventfully cycles line }
{
    seen.cycles = cycles;
    seen.edges = 0;
    seen.host = 0;
    seen.items.clear();
    seen.lines = [line, line];
}

/// Makes quiet steps, in at most `room` cycles together, up to one that writes port 2 or leads to the tick's place, which
/// is reported in `seen`: then the answer is `true`. It is `false` if there is no room for another step of two cycles.
/// If the processor is stuck, the steps before count.
#[inline(never)]
pub(crate) fn stretch(
    joint: &mut Joint,
    due: &Due,
    seen: &mut Seen,
    tick_pc: u16,
    room: u64,
) -> Result<bool, Stuck>
    requires near { joint.old.cycle + room < 2 ^ 62 }
    requires still { IsStillTo due.now joint.old (joint.old.cycle + room) }
    ensures stretched { HasStretched due.now tick_pc room joint.old result seen.new joint.new }
    ensures far { IfOk result (λ ended. IsStretchedFar tick_pc (joint.old.cycle + room) joint.old ended joint.new) }
{
    let line = joint.lines();
    let latch = port_2(joint);
    let mut passed = 0;
    let mut steps = 0;
    'steps: while passed + 1 < room {
        let place = counter(joint);
        let cycles = match call(joint, line) {
            Ok(cycles) => cycles,
            Err(stuck) => {
                joint.count(steps, passed);
                return Err(stuck);
            }
        };
        if port_2(joint) != latch {
            joint.count(steps, passed);
            joint.end_step(cycles, due, seen);
            return Ok(true);
        }
        passed += cycles as u64;
        steps += 1;
        if is_at(joint, tick_pc) {
            joint.count(steps, passed);
            report(seen, cycles, line);
            return Ok(true);
        }
        if counter(joint) == place {
            let jumps = leap(joint, line, room - passed);
            passed += 2 * jumps;
            steps += jumps;
        }
    }
    joint.count(steps, passed);
    Ok(false)
}
