//! Why a call did nothing.

use mcs48_core::Stuck;

/// Why a call did nothing. The keyboard is as it was.
#[derive(Clone, Copy, Debug, PartialEq, Eq, Drop)]
pub enum Refused {
    /// Stamp 0, cycle 4,096, isn't reached: the program stuck before it.
    Early,
    /// 2 to the 62nd cycles are done, after 365,000 years, and no more are counted.
    LastCycle,
    /// There is no room: a write finds the controller's input buffer full, or a key four edges that wait.
    Full,
    /// The processor is stuck at this place.
    Stuck(Stuck),
}
