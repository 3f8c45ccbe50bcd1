//! Steps of a run at once: quiet ones, and then one of any kind.

ghost use Rattle.std.specs.Prelude.{◌≡◌, ◌+◌, ◌<◌, ◌^◌, OnOk};
ghost use Rattle.fw_kernel.specs.declared.labels.TheConstants.{TICK};
ghost use Rattle.joint_feed.specs.Course.{IsOnCourse};
ghost use Rattle.joint_feed.specs.Filled.{run_of};
ghost use Rattle.joint_glide.specs.Still.{IsNoted, first_stir};
ghost use Rattle.joint_glide.specs.Uneventful.{HasGoneFar};
ghost use Rattle.key_file.specs.Accepted.{IsAccepted};
ghost use Rattle.debugger.specs.Striding.{HasStrode};

use fw_kernel::TICK;
use joint_feed::Course;
use joint_glide::go_on;
use key_file::{History, ListFeed};
use mcs48_core::Stuck;

/// Joint steps of the run of this history: quiet ones, in at most `most` cycles together, none of which leads to a tick
/// start, and then one of any kind. There may be no quiet one. If the processor is stuck the steps before count.
pub(crate) fn stride(course: &mut Course, history: &History, most: u64) -> Result<(), Stuck>
    requires on { IsOnCourse (run_of course.old history.now) course.old }
    requires near { course.old.joint.cycle + most < 2 ^ 62 }
    ensures accepted { IsAccepted history.now }
    ensures fill { course.new.fill ≡ course.old.fill }
    ensures far { IsNoted course.old.joint → OnOk result (HasGoneFar TICK
        (first_stir course.old.ahead.due course.old.joint most) course.old.joint course.new.joint) }
    ensures strode { HasStrode (run_of course.old history.now) most course.old result course.new }
{
    let _ = history.end();
    go_on(
        &mut course.joint,
        &course.ahead.due,
        &mut course.seen,
        TICK,
        most,
    )?;
    let edges = course.ahead.made + course.ahead.due.edges.len();
    let host = course.ahead.done + course.ahead.due.host.len();
    course
        .ahead
        .count(&mut ListFeed::at(history, edges, host), &course.seen);
    Ok(())
}
