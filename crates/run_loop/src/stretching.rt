//! Steps of a run at once: quiet ones, of which nothing is to be reported, and then one of any kind.

ghost use Rattle.std.specs.Prelude.{◌≡◌, ◌+◌, ◌<◌, ◌≤◌, ◌^◌, true, OnOk};
ghost use Rattle.joint_run.specs.Due.{with_seen};
ghost use Rattle.joint_feed.specs.Stories.{Story};
ghost use Rattle.run_loop.specs.Gliding.{IsGoing};
ghost use Rattle.run_loop.specs.Stretching.{HasMade, HasMadeFar, NoneHalts, halting_place, most_cycles};

use crate::ending::{Ending, Halt};
use board_terms::STAMP_0;
use fw_kernel::TICK;
use joint_feed::Course;
use joint_glide::{NOWHERE, go_on};
use mcs48_core::Stuck;

/// How many cycles quiet steps take together at most if a run ends at a tick start: more than there are between two.
const MOST: u64 = 65_536;

/// The place of the program to which no quiet step may lead, and how many cycles quiet steps may take together: so none
/// of them leads to a halt.
#[inline(always)]
fn reach(course: &Course, halt: Halt) -> (u16, u64)
    requires going { (s : Story) × IsGoing halt s course.now }
    requires range { halt.stop ≤ 240000000 }
    ensures place { result.0 ≡ halting_place halt.ending }
    ensures most { result.1 ≡ most_cycles halt.ending halt.stop course.now.joint.cycle }
    ensures none { NoneHalts halt.ending halt.stop result.0 (course.now.joint.cycle + result.1) }
    ensures near { course.now.joint.cycle + result.1 < 2 ^ 31 }
{
    let cycle = course.joint.cycle();
    match halt.ending {
        Ending::TickStart => (TICK, MOST),
        Ending::Stamp => (NOWHERE, STAMP_0 - 1 + halt.stop - cycle),
    }
}

/// Makes joint steps by the events that are handed in: if the probes rest quiet ones, none of which leads to a halt;
/// and then one of any kind, which is reported in the course. If the processor is stuck the steps before are made. The
/// whole of a step that probes look at is built into this place.
#[inline(always)]
pub(crate) fn make_steps<const SITE: u8>(
    course: &mut Course,
    halt: Halt,
    rest: bool,
) -> Result<(), Stuck>
    requires going { (s : Story) × IsGoing halt s course.old }
    requires range { halt.stop ≤ 240000000 }
    ensures made { HasMade halt rest course.old (with_seen result course.new.seen) course.new }
    ensures far { rest ≡ true → OnOk result (HasMadeFar halt course.old course.new) }
    ensures some { OnOk result (0 < course.new.seen.cycles) }
    ensures few { OnOk result (course.new.seen.cycles < 3) }
{
    if rest {
        let (tick_pc, most) = reach(course, halt);
        return go_on(
            &mut course.joint,
            &course.ahead.due,
            &mut course.seen,
            tick_pc,
            most,
        );
    }
    course
        .joint
        .step_inlined::<SITE>(&course.ahead.due, &mut course.seen)
}
