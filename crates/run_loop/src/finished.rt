//! A run at its end.

ghost use Rattle.std.specs.Prelude.{◌≡◌};

use crate::ending::End;
use joint_run::Joint;
use mcs48_core::Mcu;

/// A run that was made from power-on to its end: why it ended, and the machine there.
#[derive(Drop)]
pub struct Finished {
    pub end: End,
    pub joint: Joint,
}

impl Finished {
    /// Why it ended: its ending was reached, or the next step would execute a byte that begins no instruction.
    pub fn end(&self) -> End
        ensures end { result ≡ self.now.end }
    {
        self.end
    }

    /// The processor at its end, before the step that wasn't made.
    pub fn mcu(&self) -> &Mcu
        ensures processor { result.now ≡ self.now.joint.mcu }
    {
        self.joint.mcu()
    }

    /// The joint steps that were made.
    pub fn steps(&self) -> u64
        ensures steps { result ≡ self.now.joint.steps }
    {
        self.joint.steps()
    }

    /// The cycles that they took.
    pub fn cycles(&self) -> u64
        ensures cycles { result ≡ self.now.joint.cycle }
    {
        self.joint.cycle()
    }
}
