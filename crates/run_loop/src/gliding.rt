//! Steps of a run, one after another, as long as nothing of them has to be counted or reported. Probes that rest look only if
//! they would miss something.

ghost use Rattle.std.specs.Prelude.{◌≡◌, ◌≤◌, List, [], true, map, OnOk};
ghost use Rattle.joint_feed.specs.Stories.{Story};
ghost use Rattle.run_probes.specs.Probes.{Watch, sight_of};
ghost use Rattle.run_loop.specs.Gliding.{IsGlide, IsUnderWay};
ghost use Rattle.run_loop.specs.Stretching.{CanFollow};

use crate::ending::{Ending, Halt, must_halt};
use crate::stretching::make_steps;
use board_terms::Lines;
use joint_feed::Course;
use joint_run::{Joint, Seen};
use mcs48_core::Stuck;
use run_probes::{Probe, all_rest, look_all};

/// Whether a step took no event and said nothing.
fn is_silent(seen: &Seen) -> bool
    ensures edges { result ≡ true → seen.now.edges ≡ 0 }
    ensures host { result ≡ true → seen.now.host ≡ 0 }
    ensures items { result ≡ true → seen.now.items.items ≡ [] }
    ensures silent { seen.now.edges ≡ 0 → seen.now.host ≡ 0 → seen.now.items.items ≡ [] → result ≡ true }
{
    seen.edges == 0 && seen.host == 0 && seen.items.is_empty()
}

/// Whether the clock has this level. Most often nobody pulls a wire, and then it is high; to know that costs less than to
/// ask for the wires.
#[inline(always)]
fn is_clock(joint: &Joint, clk: bool) -> bool
    ensures level { result ≡ true → (sight_of joint.now).lines.clk ≡ clk }
    ensures always { (sight_of joint.now).lines.clk ≡ clk → result ≡ true }
{
    if joint.is_let_go() {
        return clk;
    }
    joint.lines().clk == clk
}

/// Whether both wires have these levels.
#[inline(always)]
fn are_levels(joint: &Joint, lines: Lines) -> bool
    ensures levels { result ≡ true → (sight_of joint.now).lines ≡ lines }
    ensures always { (sight_of joint.now).lines ≡ lines → result ≡ true }
{
    if joint.is_let_go() {
        return lines.clk && lines.dat;
    }
    joint.lines() == lines
}

/// Whether probes needn't look at this state: the next step can follow at once, they rest while the clock has this level, and
/// it has.
#[inline(always)]
fn is_passed_over(follows: bool, rest: bool, clk: bool, joint: &Joint) -> bool
    ensures follows { result ≡ true → follows ≡ true }
    ensures rest { result ≡ true → rest ≡ true }
    ensures level { result ≡ true → (sight_of joint.now).lines.clk ≡ clk }
    ensures always { follows ≡ true → rest ≡ true → (sight_of joint.now).lines.clk ≡ clk → result ≡ true }
{
    follows && rest && is_clock(joint, clk)
}

/// Whether the wires, if they are sampled, have the levels that they had.
#[inline(always)]
fn keeps_levels(wires: bool, lines: Lines, joint: &Joint) -> bool
    ensures levels { result ≡ true → wires ≡ true → (sight_of joint.now).lines ≡ lines }
    ensures always { (wires ≡ true → (sight_of joint.now).lines ≡ lines) → result ≡ true }
{
    !wires || are_levels(joint, lines)
}

/// Whether the next step can follow at once: the last one took no event, said nothing, and led to no halt and to no
/// change of wires that are sampled.
#[inline(always)]
fn can_follow(course: &Course, halt: Halt, lines: Lines) -> bool
    requires range { halt.stop ≤ 240000000 }
    ensures follows { result ≡ true → CanFollow halt lines course.now }
    ensures always { CanFollow halt lines course.now → result ≡ true }
{
    is_silent(&course.seen)
        && !must_halt(halt.ending, &course.joint, halt.stop)
        && keeps_levels(halt.wires, lines, &course.joint)
}

/// Makes joint steps up to one that took an event, said something, led to a halt or changed wires that are sampled; of what
/// each of them led to the probes know what a look would have shown them. While they rest they look only at a state in
/// which the clock has another level than at their last look, and at the last state. What the last step took and said
/// is left in the course. If the processor is stuck the steps before are made, and what is left is of no use. `SITE`, from
/// 4, is a number that no other place of the program gives.
#[inline(always)]
pub(crate) fn glide<const SITE: u8>(
    course: &mut Course,
    halt: Halt,
    probes: &mut Vec<Box<dyn Probe>>,
) -> Result<(), Stuck>
    requires way { (s : Story) × (first : List Watch) × IsUnderWay halt s first course.old (map (λ b. watch b) probes.old.items) }
    requires range { halt.stop ≤ 240000000 }
    ensures glide { (s : Story) (first : List Watch) → IsUnderWay halt s first course.old (map (λ b. watch b) probes.old.items)
        → IsGlide halt s first course.old result course.new (map (λ b. watch b) probes.new.items) }
    ensures far { OnOk result (CanFollow halt (sight_of course.old.joint).lines course.new → ⊥) }
{
    let lines = course.joint.lines();
    let mut clk = lines.clk;
    let mut rest = all_rest(probes, clk);
    let mut latest = course.joint.steps();
    'steps: loop {
        match make_steps::<SITE>(course, halt, rest) {
            Err(stuck) => match halt.ending {
                // A program that keeps its time never comes to a byte without an instruction.
                Ending::TickStart => unreachable!(),
                Ending::Stamp => {
                    let steps = course.joint.steps();
                    // If the processor was stuck at once there is nothing new to look at.
                    if steps != latest {
                        let _ = look_all(probes, steps, &course.joint);
                    }
                    return Err(stuck);
                }
            },
            Ok(()) => {}
        }
        let follows = can_follow(course, halt, lines);
        if !is_passed_over(follows, rest, clk, &course.joint) {
            latest = course.joint.steps();
            let _ = look_all(probes, latest, &course.joint);
            if !follows {
                return Ok(());
            }
            clk = course.joint.lines().clk;
            rest = all_rest(probes, clk);
        }
    }
}
