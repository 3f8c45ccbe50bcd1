//! The tick starts of a joint run.

ghost use Rattle.std.specs.Prelude.{not, ◌%◌, ◌&&◌, ◌==◌, ◌≡◌};
ghost use Rattle.fw_kernel.specs.declared.labels.TheConstants.{TICK};
ghost use Rattle.fw_ticks.specs.JointRun.{ExecutesTick, DecidesTick};
ghost use Rattle.mcs48_core.specs.Step.{takes_timer};

use fw_kernel::TICK;
use joint_run::Joint;
use mcs48_core::Mcu;

/// Whether the machine is at a tick start: the counter, modulo 2,048, is `TICK`, and the next step is no
/// interrupt's entry. Then the next step executes the instruction at `TICK`.
pub fn at_tick(joint: &Joint) -> bool
    ensures decides { DecidesTick joint.now result }
    ensures executes { ExecutesTick joint.now result }
{
    is_at_tick_start(joint.mcu())
}

/// Whether a processor whose pin INT is high is at a tick start. The counter is looked at first: in most steps it is elsewhere.
fn is_at_tick_start(mcu: &Mcu) -> bool
    ensures { result ≡ (mcu.now.pc % 2048 == TICK && not (takes_timer mcu.now)) }
{
    mcu.pc % 2048 == TICK && !mcu.takes_timer()
}
