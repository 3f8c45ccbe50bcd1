//! What a run answers.

use crate::stops::Met;
use mcs48_core::Stuck;

/// Why a run ended.
#[derive(Clone, Copy, Debug, PartialEq, Eq, Drop)]
pub enum RunEnd {
    /// So many cycles have passed, at least, or so many steps were made.
    Passed,
    /// The last step did what the run was to stop for.
    Met(Met),
    /// 2 to the 62nd cycles are done, and no more are counted.
    LastCycle,
    /// The processor is stuck at this place.
    Stuck(Stuck),
}

/// How many cycles passed, and why no more.
#[derive(Clone, Copy, Debug, PartialEq, Eq, Drop)]
pub struct Ran {
    pub cycles: u64,
    pub end: RunEnd,
}
