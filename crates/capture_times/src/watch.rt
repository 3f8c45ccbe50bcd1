//! Which times are outside the limits, by the levels of the two wires.

ghost use Rattle.std.specs.Prelude.{◌≡◌};
ghost use Rattle.capture_times.specs.Watching.{after_clock, after_hold, after_lines, after_pulse, at_first, changed, clock_slips, high, is_late, is_same, low, next_periods, next_pulses, no_slips, slips_at, slips_of, started, watched};

use crate::periods::Periods;
use crate::slip::{Slip, Slips, high_slip, hold_slip, low_slip, settled_slip};
use board_terms::{HIGH, Lines};

/// The longest pulse that is too short to be anything, in nanoseconds.
const GLITCH: u64 = 5_000;

/// The shortest pulse that is the host's, in nanoseconds.
const HOST: u64 = 55_000;

/// The longest time that the clock is high within a frame, in nanoseconds.
const PAUSE: u64 = 400_000;

/// The pulses of a frame before its last one.
const LAST: u8 = 10;

/// What was seen of the two wires so far. Times are in nanoseconds.
#[derive(Clone, Copy, Drop)]
pub struct Watch {
    /// The last levels.
    pub(crate) lines: Lines,
    /// When data changed last.
    pub(crate) change: u64,
    /// When the clock fell last, and how long before that data changed.
    pub(crate) fall: u64,
    pub(crate) settled: u64,
    /// When the last pulse fell and rose that was no glitch.
    pub(crate) last_fall: u64,
    pub(crate) last_rise: u64,
    /// How many pulses the frame under way has, and whether the host asked for it.
    pub(crate) pulses: u8,
    pub(crate) from_host: bool,
    pub(crate) periods: Periods,
}

/// Whether two levels are the same.
fn is_same(before: bool, now: bool) -> bool
    ensures { result ≡ is_same before now }
{
    if before { now } else { !now }
}

/// Nothing is outside the limits.
fn no_slips() -> Slips
    ensures { result ≡ no_slips }
{
    Slips {
        low: None,
        high: None,
        settled: None,
    }
}

impl Watch {
    /// Before anything is seen both wires are high.
    pub fn new() -> Watch
        ensures first { result ≡ at_first }
    {
        Watch {
            lines: HIGH,
            change: 0,
            fall: 0,
            settled: 0,
            last_fall: 0,
            last_rise: 0,
            pulses: 0,
            from_host: false,
            periods: Periods::new(),
        }
    }

    /// When the clock fell last, in nanoseconds.
    pub fn fall(&self) -> u64
        ensures fall { result ≡ self.now.fall }
    {
        self.fall
    }

    /// The periods of the clock so far.
    pub fn periods(&self) -> Periods
        ensures periods { result ≡ self.now.periods }
    {
        self.periods
    }

    /// How long the clock was low, if it rises now.
    fn low(&self, rise: u64) -> u64
        ensures { result ≡ low rise self.now }
    {
        rise.saturating_sub(self.fall)
    }

    /// How long the clock was high before its last fall.
    fn high(&self) -> u64
        ensures { result ≡ high self.now }
    {
        self.fall.saturating_sub(self.last_rise)
    }

    /// Whether the last fall isn't of the frame under way, or none is under way.
    fn is_late(&self) -> bool
        ensures { result ≡ is_late self.now }
    {
        self.pulses == 0 || self.high() > PAUSE
    }

    /// The same at the first pulse of a frame. A pause ends the host's frame too.
    fn started(self) -> Watch
        ensures { result ≡ started self }
    {
        if !self.is_late() {
            return self;
        }
        Watch {
            from_host: self.from_host && self.pulses == 0,
            pulses: 0,
            ..self
        }
    }

    /// What is outside the limits at a pulse of the keyboard's clock, of a frame that was begun.
    fn clock_slips(&self, rise: u64) -> Slips
        ensures { result ≡ clock_slips rise self.now }
    {
        Slips {
            low: low_slip(self.low(rise)),
            high: if self.pulses == 0 {
                None
            } else {
                high_slip(self.high())
            },
            settled: if self.from_host {
                None
            } else {
                settled_slip(self.settled)
            },
        }
    }

    /// How many pulses the frame has after one more; none is under way after its last.
    fn next_pulses(&self) -> u8
        ensures { result ≡ next_pulses self.now }
    {
        if self.pulses >= LAST {
            0
        } else {
            self.pulses + 1
        }
    }

    /// The periods with the one that ends at the last fall, if it is one within the frame.
    fn next_periods(&self) -> Periods
        ensures { result ≡ next_periods self.now }
    {
        if self.pulses == 0 {
            self.periods
        } else {
            self.periods.with(self.fall.saturating_sub(self.last_fall))
        }
    }

    /// After a pulse of the keyboard's clock, of a frame that was begun.
    fn after_clock(self, rise: u64) -> Watch
        ensures { result ≡ after_clock rise self }
    {
        let pulses = self.next_pulses();
        let periods = self.next_periods();
        Watch {
            last_fall: self.fall,
            last_rise: rise,
            pulses,
            from_host: self.from_host && pulses != 0,
            periods,
            ..self
        }
    }

    /// After a hold of the host, at the end of which data has this level.
    fn after_hold(self, rise: u64, dat: bool) -> Watch
        ensures { result ≡ after_hold rise dat self }
    {
        Watch {
            last_fall: self.fall,
            last_rise: rise,
            pulses: 0,
            from_host: !dat,
            ..self
        }
    }

    /// What is outside the limits at a pulse that ends now.
    fn slips_of(&self, rise: u64) -> Slips
        ensures { result ≡ slips_of rise self.now }
    {
        let low = self.low(rise);
        if low <= GLITCH {
            no_slips()
        } else if low >= HOST {
            Slips {
                low: hold_slip(low),
                high: None,
                settled: None,
            }
        } else {
            self.started().clock_slips(rise)
        }
    }

    /// After a pulse that ends now, with this level of data.
    fn after_pulse(self, rise: u64, dat: bool) -> Watch
        ensures { result ≡ after_pulse rise dat self }
    {
        let low = self.low(rise);
        if low <= GLITCH {
            self
        } else if low >= HOST {
            self.after_hold(rise, dat)
        } else {
            self.started().after_clock(rise)
        }
    }

    /// When data changed last, with these levels at a time.
    fn changed(&self, time: u64, lines: Lines) -> u64
        ensures { result ≡ changed time lines self.now }
    {
        if is_same(self.lines.dat, lines.dat) {
            self.change
        } else {
            time
        }
    }

    /// After these levels at a time, if no pulse ends.
    fn after_lines(self, time: u64, lines: Lines) -> Watch
        ensures { result ≡ after_lines time lines self }
    {
        let change = self.changed(time, lines);
        let falls = self.lines.clk && !lines.clk;
        Watch {
            lines,
            change,
            fall: if falls { time } else { self.fall },
            settled: if falls {
                time.saturating_sub(change)
            } else {
                self.settled
            },
            ..self
        }
    }

    /// Takes the levels from a time on, in nanoseconds, which isn't before the last one. Answers what is outside the limits
    /// at the pulse that ends, if one ends.
    ///
    /// A pulse of at most 5 µs is a glitch, and isn't judged. One of at least 55 µs is the host's hold, which lasts 60 µs at
    /// least. All others are the keyboard's: the clock is low for 30 to 50 µs, and within a frame it is high for 30 to 50 µs
    /// before that. Data of the keyboard changes 5 µs before the fall at least. A frame has eleven pulses, and no pause of
    /// 400 µs.
    pub fn see(&mut self, time: u64, lines: Lines) -> Slips
        ensures after { self.new ≡ watched time lines self.old }
        ensures slips { result ≡ slips_at time lines self.old }
    {
        if self.lines.clk || !lines.clk {
            *self = self.after_lines(time, lines);
            return no_slips();
        }
        let slips = self.slips_of(time);
        *self = self.after_pulse(time, lines.dat).after_lines(time, lines);
        slips
    }
}
