//! Joint steps, as many at once as there are before something may happen.

ghost use Rattle.std.specs.Prelude.{◌+◌, ◌<◌, ◌^◌, OnOk};
ghost use Rattle.joint_glide.specs.Uneventful.{HasGone, HasGoneFar};
ghost use Rattle.joint_glide.specs.Still.{IsNoted, first_stir};
ghost use Rattle.joint_run.specs.Due.{with_seen};

use crate::still::still_to;
use crate::stretch::stretch;
use joint_run::{Due, Joint, Seen};
use mcs48_core::Stuck;

/// No place of a program, which has 2,048: with it in the place of a tick's, quiet steps stop at none.
pub const NOWHERE: u16 = 2048;

/// Makes joint steps by the events that are handed in: quiet ones, in at most `most` cycles together, none of which leads
/// to the place `tick` of the program, and then one of any kind, which is reported in `seen`. There may be no quiet one. If
/// the processor is stuck, the steps before count, and `seen` is of no use.
#[inline(always)]
pub fn go_on(
    joint: &mut Joint,
    due: &Due,
    seen: &mut Seen,
    tick_pc: u16,
    most: u64,
) -> Result<(), Stuck>
    requires near { joint.old.cycle + most < 2 ^ 62 }
    ensures gone { HasGone due.now tick_pc most joint.old (with_seen result seen.new) joint.new }
    ensures far { IsNoted joint.old → OnOk result (HasGoneFar tick_pc (first_stir due.now joint.old most) joint.old joint.new) }
    ensures some { OnOk result (0 < seen.new.cycles) }
    ensures few { OnOk result (seen.new.cycles < 3) }
{
    let room = still_to(joint, due, most) - joint.cycle();
    if stretch(joint, due, seen, tick_pc, room)? {
        return Ok(());
    }
    joint.step_into(due, seen)
}
