//! Pulses of the clock.

ghost use Rattle.std.specs.Prelude.{◌≡◌};
ghost use Rattle.capture_frames.specs.Pulses.{at_start, clock_after, pulse_by};

use board_terms::{HIGH, Lines};

/// A pulse of the clock: the times at which it fell and rose, in nanoseconds, with the levels of data then.
#[derive(Clone, Copy, Drop)]
pub(crate) struct Pulse {
    pub(crate) fall: u64,
    pub(crate) at_fall: bool,
    pub(crate) rise: u64,
    pub(crate) at_rise: bool,
}

/// What was said of the clock so far: the last levels, and when the clock fell last, with the level
/// of data then.
#[derive(Clone, Copy, Drop)]
pub(crate) struct Clock {
    pub(crate) lines: Lines,
    pub(crate) fall: u64,
    pub(crate) at_fall: bool,
}

impl Clock {
    /// Before anything is said both wires are high.
    pub(crate) fn new() -> Clock
        ensures start { result ≡ at_start }
    {
        Clock {
            lines: HIGH,
            fall: 0,
            at_fall: true,
        }
    }

    /// The pulse that ends with these levels at a time: the clock was low, and is high.
    pub(crate) fn pulse_by(&self, time: u64, lines: Lines) -> Option<Pulse>
        ensures pulse { result ≡ pulse_by time lines self.now }
    {
        (!self.lines.clk && lines.clk).then_some(Pulse {
            fall: self.fall,
            at_fall: self.at_fall,
            rise: time,
            at_rise: lines.dat,
        })
    }

    /// After these levels at a time.
    pub(crate) fn after(self, time: u64, lines: Lines) -> Clock
        ensures after { result ≡ clock_after time lines self }
    {
        let falls = self.lines.clk && !lines.clk;
        Clock {
            lines,
            fall: if falls { time } else { self.fall },
            at_fall: if falls { lines.dat } else { self.at_fall },
        }
    }
}
