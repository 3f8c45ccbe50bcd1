//! Times outside the limits.

ghost use Rattle.std.specs.Prelude.{◌≡◌};
ghost use Rattle.capture_times.specs.Limits.{high_slip, hold_slip, is_outside, low_slip, settled_slip};

/// The shortest and the longest time that the keyboard's clock is low, or high, in nanoseconds.
const SHORTEST: u64 = 30_000;

const LONGEST: u64 = 50_000;

/// The shortest time from a change of data to the fall of the keyboard's clock, in nanoseconds.
const SETTLED: u64 = 5_000;

/// The shortest hold of the host, in nanoseconds.
const HOLD: u64 = 60_000;

/// A time outside its limits, in nanoseconds.
#[derive(Clone, Copy, Debug, PartialEq, Eq, Drop)]
pub enum Slip {
    /// The keyboard's clock was low, not for 30 to 50 µs.
    Low(u64),
    /// The keyboard's clock was high within a frame, not for 30 to 50 µs.
    High(u64),
    /// Data changed so long before the fall of the keyboard's clock, less than 5 µs.
    Settled(u64),
    /// The host held the clock, less than 60 µs.
    Held(u64),
}

/// What is outside the limits at a pulse: how long the clock is low, how long it was high before it, and when data changed.
#[derive(Clone, Copy, Debug, PartialEq, Eq, Drop)]
pub struct Slips {
    pub low: Option<Slip>,
    pub high: Option<Slip>,
    pub settled: Option<Slip>,
}

/// Whether a time isn't that of a level of the keyboard's clock.
fn is_outside(time: u64) -> bool
    ensures { result ≡ is_outside time }
{
    time < SHORTEST || time > LONGEST
}

/// How long the clock is low, if it is a slip.
pub(crate) fn low_slip(time: u64) -> Option<Slip>
    ensures { result ≡ low_slip time }
{
    is_outside(time).then_some(Slip::Low(time))
}

/// How long the clock was high, if it is a slip.
pub(crate) fn high_slip(time: u64) -> Option<Slip>
    ensures { result ≡ high_slip time }
{
    is_outside(time).then_some(Slip::High(time))
}

/// How long before the fall data changed, if it is a slip.
pub(crate) fn settled_slip(time: u64) -> Option<Slip>
    ensures { result ≡ settled_slip time }
{
    (time < SETTLED).then_some(Slip::Settled(time))
}

/// How long the host held the clock, if it is a slip.
pub(crate) fn hold_slip(time: u64) -> Option<Slip>
    ensures { result ≡ hold_slip time }
{
    (time < HOLD).then_some(Slip::Held(time))
}
