//! The tick starts of a run, as they come.

ghost use Rattle.std.specs.Prelude.{◌≡◌, ◌-◌, ◌++◌, ◌^◌, ◌<◌, ◌≤◌, length, true, Some, vec_capacity, OnErr, OnOk};
ghost use Rattle.joint_feed.specs.Stories.{Story, starts_tick};
ghost use Rattle.joint_run.specs.Joint.{Beside};
ghost use Rattle.joint_run.specs.Run.{World};
ghost use Rattle.run_loop.specs.Starts.{start_stamp};

use board_terms::STAMP_0;
use fw_ticks::at_tick;
use joint_run::Joint;
use std::alloc::AllocError;

/// The stamps of the tick starts so far.
#[derive(Drop)]
pub struct Starts {
    pub stamps: Vec<u64>,
}

impl Starts {
    /// The tick of the last start, or 0 if none has started.
    pub(crate) fn tick(&self) -> u32
        requires few { length self.now.stamps.items < 2 ^ 32 }
        ensures { result ≡ length self.now.stamps.items - 1 }
    {
        self.stamps.len().saturating_sub(1) as u32
    }

    /// Notes the tick that starts at a state of a run, if one does, in which no tick starts before stamp 0. Memory may be
    /// lacking if the list is full.
    pub(crate) fn note(&mut self, joint: &Joint) -> Result<(), AllocError>
        requires late { (s : Story) × (w : World Beside) × (w.cpu ≡ joint.now.mcu) × (w.cycle ≡ joint.now.cycle)
            × (starts_tick s w ≡ true → 4096 ≤ w.cycle) }
        ensures noted { (s : Story) (w : World Beside) → w.cpu ≡ joint.now.mcu → w.cycle ≡ joint.now.cycle
            → OnOk result (self.new.stamps.items ≡ self.old.stamps.items ++ start_stamp s (Some w)) }
        ensures full { OnErr result (vec_capacity self.old.stamps ≤ length self.old.stamps.items) }
        ensures capacity { vec_capacity self.old.stamps ≤ vec_capacity self.new.stamps }
    {
        if at_tick(joint) {
            self.stamps.push(joint.cycle() - STAMP_0)?;
        }
        Ok(())
    }

    /// The same if the list has room for one more: nothing is lacking.
    pub(crate) fn note_within(&mut self, joint: &Joint)
        requires late { (s : Story) × (w : World Beside) × (w.cpu ≡ joint.now.mcu) × (w.cycle ≡ joint.now.cycle)
            × (starts_tick s w ≡ true → 4096 ≤ w.cycle) }
        requires room { length self.old.stamps.items < vec_capacity self.old.stamps }
        ensures noted { (s : Story) (w : World Beside) → w.cpu ≡ joint.now.mcu → w.cycle ≡ joint.now.cycle
            → self.new.stamps.items ≡ self.old.stamps.items ++ start_stamp s (Some w) }
        ensures capacity { vec_capacity self.old.stamps ≤ vec_capacity self.new.stamps }
    {
        match self.note(joint) {
            Ok(()) => {}
            // There is room.
            Err(_) => unreachable!(),
        }
    }
}
