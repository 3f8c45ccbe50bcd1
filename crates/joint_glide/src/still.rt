//! Up to which cycle nothing changes outside the processor.

ghost use Rattle.std.specs.Prelude.{◌≡◌, ◌+◌, ◌<◌, ◌≤◌, ◌^◌, ℕ, true, [], max, min, slice_get};
ghost use Rattle.ctl_wire.specs.Wire.{is_breakable};
ghost use Rattle.host_wakes.specs.Wakes.{SleepsTo, wakes};
ghost use Rattle.joint_glide.specs.Still.{IsNoted, IsStillTo, edge_or, first_stir};
ghost use Rattle.joint_run.specs.Cycle.{outside_wires};
ghost use Rattle.joint_run.specs.Due.{made_first};
ghost use Rattle.joint_run.specs.Joint.{lights_of};

use board_terms::{Edge, HostEvent, STAMP_0};
use host_wakes::first_stir;
use joint_run::{Due, Joint, Outside, lights};

/// The cycle in which the first of these edges is made, or the end, if that comes first.
fn edge_or(edges: &[Edge], end: u64) -> u64
    ensures to { result ≤ end }
    ensures none { (now : ℕ) → now < result → made_first now edges.now ≡ [] }
    ensures is { result ≡ edge_or edges.now end }
{
    match edges {
        [] => end,
        [edge, ..] => edge.stamp.saturating_add(STAMP_0).min(end),
    }
}

/// The first of these events.
fn first_of(events: &[HostEvent]) -> Option<HostEvent>
    ensures { result ≡ slice_get events.now 0 }
{
    events.first().copied()
}

/// Whether what port 2 drives is noted: its lights are shown, and the controller's last look saw the clock's level.
fn is_noted(joint: &Joint) -> bool
    ensures shown { result ≡ true → lights_of joint.now.mcu.p2 ≡ joint.now.outside.shown }
    ensures level { result ≡ true → (outside_wires joint.now.mcu.p2 joint.now.outside).clk ≡ joint.now.outside.clock }
    ensures noted { IsNoted joint.now → result ≡ true }
{
    let outside = joint.outside();
    let line = joint.lines();
    lights(joint.mcu().p2) == outside.shown && line.clk == outside.clock
}

/// The first cycle from `now` on in which something may happen on the PC's side, and `end` if there is none before it. Until
/// then the PC sleeps.
fn wakes(outside: &Outside, next: Option<HostEvent>, now: u64, end: u64) -> u64
    requires order { now ≤ end }
    ensures from { now ≤ result }
    ensures to { result ≤ end }
    ensures is { result ≡ max now (min (wakes is_breakable next outside.now.desk end) end) }
    ensures sleeps { SleepsTo is_breakable next outside.now.desk now result }
{
    first_stir(&outside.desk, next, now, end)
}

/// A cycle up to which nothing changes outside the processor and no edge is made, as long as port 2 keeps its latch; at
/// most `most` cycles from the next one on. It goes by the next edge, the host's next event, the read of INT 09h, and
/// what the controller does by itself. If what port 2 drives isn't noted yet, there is no such cycle.
pub(crate) fn still_to(joint: &Joint, due: &Due, most: u64) -> u64
    requires near { joint.now.cycle + most < 2 ^ 62 }
    ensures from { joint.now.cycle ≤ result }
    ensures to { result ≤ joint.now.cycle + most }
    ensures still { IsStillTo due.now joint.now result }
    ensures far { IsNoted joint.now → result ≡ first_stir due.now joint.now most }
    ensures none { (IsNoted joint.now → ⊥) → result ≡ joint.now.cycle }
{
    let cycle = joint.cycle();
    if !is_noted(joint) {
        return cycle;
    }
    let end = edge_or(due.edges.as_slice(), cycle + most).max(cycle);
    let next = first_of(due.host.as_slice());
    wakes(joint.outside(), next, cycle, end)
}
