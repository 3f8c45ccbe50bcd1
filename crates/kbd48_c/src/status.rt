//! The statuses that calls answer, as `c/kbd48.h` has them.

ghost use Rattle.std.specs.Prelude.{◌≡◌};
ghost use Rattle.kbd48_c.specs.Statuses.{refused_status, run_status};

use live_board::{Refused, RunEnd};

pub(crate) const DONE: i32 = 0;

pub(crate) const NOT_OPEN: i32 = 1;

pub(crate) const NO_MEMORY: i32 = 2;

pub(crate) const BAD_TEXT: i32 = 3;

pub(crate) const TOO_LONG: i32 = 4;

pub(crate) const NO_SUCH_PLACE: i32 = 5;

pub(crate) const NO_SUCH_PORT: i32 = 6;

pub(crate) const FULL: i32 = 7;

pub(crate) const STUCK: i32 = 8;

pub(crate) const EARLY: i32 = 9;

pub(crate) const OVER: i32 = 10;

pub(crate) const NO_WORD: i32 = 11;

pub(crate) const ROSE: i32 = 12;

pub(crate) const NO_SUCH_CELL: i32 = 13;

pub(crate) const NOTHING_SAID: i32 = 14;

pub(crate) const LOST: i32 = 15;

pub(crate) const REPEATED: i32 = 16;

pub(crate) const KEY_DUE: i32 = 17;

pub(crate) const NO_SUCH_KEY: i32 = 18;

pub(crate) const NO_SUCH_BIT: i32 = 19;

pub(crate) const BAD_SIZE: i32 = 20;

pub(crate) const NOT_SAVED: i32 = 21;

pub(crate) const OTHER_VERSION: i32 = 22;

pub(crate) const BAD_STATE: i32 = 23;

/// The status of a call that was refused.
pub(crate) fn refused_status(refused: Refused) -> i32
    ensures { result ≡ refused_status refused }
{
    match refused {
        Refused::Early => EARLY,
        Refused::LastCycle => OVER,
        Refused::Full => FULL,
        Refused::Stuck(_) => STUCK,
    }
}

/// The status of a run that stops for a rise of the line alone, by why it ended.
pub(crate) fn run_status(end: RunEnd) -> i32
    ensures { result ≡ run_status end }
{
    match end {
        RunEnd::Passed => DONE,
        RunEnd::Met(_) => ROSE,
        RunEnd::LastCycle => OVER,
        RunEnd::Stuck(_) => STUCK,
    }
}
