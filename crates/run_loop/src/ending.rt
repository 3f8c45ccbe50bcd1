//! Where a run ends, and why it did.

ghost use Rattle.std.specs.Prelude.{◌≡◌, ◌+◌, ◌≤◌, false, nat_le};
ghost use Rattle.run_loop.specs.Answers.{MeetsNoTick, DecidesHalt, DecidesOver};

use board_terms::STAMP_0;
use fw_ticks::at_tick;
use joint_run::Joint;
use mcs48_core::Stuck;

/// Where a run ends that isn't stuck before.
#[derive(Clone, Copy, Debug, PartialEq, Eq, Drop)]
pub enum Ending {
    /// At the first tick start at or after the end stamp.
    TickStart,
    /// Before the first step that would begin at or after the end stamp.
    Stamp,
}

/// Why a run ended.
#[derive(Clone, Copy, Debug, PartialEq, Eq, Drop)]
pub enum End {
    /// What its ending says was reached.
    Reached,
    /// The next step would execute a byte that begins no instruction: the program counter, and the byte there.
    Stuck(Stuck),
}

/// What ends a stretch of steps of a run with this ending and this end stamp, besides what a step takes or says: if
/// the run ends at a tick start each start of a tick, and else its end; and if the wires are sampled each change of
/// a wire.
#[derive(Clone, Copy, Debug, PartialEq, Eq, Drop)]
pub struct Halt {
    pub ending: Ending,
    pub stop: u64,
    pub wires: bool,
}

/// Whether a run with this end stamp has reached it at a cycle.
#[inline(always)]
fn has_reached(cycle: u64, stop: u64) -> bool
    requires { stop ≤ 240000000 }
    ensures reached { result ≡ nat_le (4096 + stop) cycle }
{
    cycle >= STAMP_0 + stop
}

/// Whether a run that has reached this state is over there.
#[inline(always)]
pub(crate) fn is_over(ending: Ending, joint: &Joint, stop: u64) -> bool
    requires { stop ≤ 240000000 }
    ensures { DecidesOver ending joint.now stop result }
{
    match ending {
        Ending::TickStart => at_tick(joint) && has_reached(joint.cycle(), stop),
        Ending::Stamp => has_reached(joint.cycle(), stop),
    }
}

/// Whether steps must stop at this state: if the run ends at a tick start, at each start of a tick, and else at its end.
#[inline(always)]
pub(crate) fn must_halt(ending: Ending, joint: &Joint, stop: u64) -> bool
    requires { stop ≤ 240000000 }
    ensures halt { DecidesHalt ending joint.now stop result }
    ensures open { result ≡ false → DecidesOver ending joint.now stop false }
    ensures no_tick { result ≡ false → MeetsNoTick ending joint.now }
{
    match ending {
        Ending::TickStart => at_tick(joint),
        Ending::Stamp => has_reached(joint.cycle(), stop),
    }
}
