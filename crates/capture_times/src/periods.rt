//! The periods of the keyboard's clock.

ghost use Rattle.std.specs.Prelude.{◌≡◌};
ghost use Rattle.capture_times.specs.Periods.{mean, no_periods, with_period};

/// How many periods of the clock there are within frames, from fall to fall; and, in nanoseconds, their sum, the least of
/// them and the greatest.
#[derive(Clone, Copy, Debug, PartialEq, Eq, Drop)]
pub struct Periods {
    pub count: u64,
    pub sum: u64,
    pub least: u64,
    pub greatest: u64,
}

impl Periods {
    /// None yet.
    pub(crate) fn new() -> Periods
        ensures { result ≡ no_periods }
    {
        Periods {
            count: 0,
            sum: 0,
            least: 0,
            greatest: 0,
        }
    }

    /// With one more. Count and sum stand still at their greatest value.
    pub(crate) fn with(self, period: u64) -> Periods
        ensures { result ≡ with_period period self }
    {
        Periods {
            count: self.count.saturating_add(1),
            sum: self.sum.saturating_add(period),
            least: if self.count == 0 {
                period
            } else {
                self.least.min(period)
            },
            greatest: self.greatest.max(period),
        }
    }

    /// Their mean, rounded down; 0 if there are none.
    pub fn mean(self) -> u64
        ensures mean { result ≡ mean self }
    {
        if self.count == 0 {
            0
        } else {
            self.sum / self.count
        }
    }
}
