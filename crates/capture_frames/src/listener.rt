//! Findings, by the levels of the two wires.

ghost use Rattle.std.specs.Prelude.{◌≡◌, None};
ghost use Rattle.capture_frames.specs.Listening.{at_first, frame_at_end, heard_at, heard_by, hearing_after, pulse_at_end};

use crate::ear::{Ear, Said};
use crate::finding::{Finding, Timed};
use crate::pulse::Clock;
use board_terms::Lines;
use std::marker::Model;

/// What was said so far: the clock, and the frame under way.
#[derive(Drop)]
pub struct Listener {
    clock: Clock,
    ear: Ear,
}

impl Model for Listener {
    ghost use Rattle.capture_frames.specs.Listening.{Hearing};

    ghost Value = { Hearing };

    ghost view = { λ l. record { clock = l.clock; frame = l.ear } };
}

impl Listener {
    /// Before anything is said: both wires are high, and no frame is under way.
    pub fn new() -> Listener
        ensures first { result ≡ at_first }
    {
        Listener {
            clock: Clock::new(),
            ear: Ear::new(),
        }
    }

    /// Takes levels with which no pulse ends. Answers the frame that they end.
    fn between(&mut self, lines: Lines) -> Option<Timed>
        ensures left { self.new ≡ record self.old { frame = (heard_by None lines self.old.frame).left } }
        ensures frame { result ≡ (heard_by None lines self.old.frame).frame }
    {
        if lines.clk {
            self.ear.take_high(lines.dat)
        } else {
            None
        }
    }

    /// Takes the levels from a time on, in nanoseconds, which isn't before the last one. If the clock rises, its pulse has
    /// ended. Answers what that pulse ends, and what it is itself, if that is more than a bit.
    ///
    /// A pulse of at most 5 µs is a glitch. One of at least 55 µs is the host's, which holds the clock. It breaks a frame
    /// off, or began within the last pulse of one; if data is low at its end, the host asks the keyboard to take a byte.
    /// All others are the keyboard's: a bit each. The host's request lasts until its first edge, or until data is high while
    /// the clock is. An edge later than 400 µs after the last one is of another frame, so what is heard may begin within a frame.
    pub fn hear(&mut self, time: u64, lines: Lines) -> Said
        ensures left { self.new ≡ hearing_after time lines self.old }
        ensures frame { result.frame ≡ (heard_at time lines self.old).frame }
        ensures pulse { result.pulse ≡ (heard_at time lines self.old).pulse }
    {
        let pulse = self.clock.pulse_by(time, lines);
        self.clock = self.clock.after(time, lines);
        match pulse {
            Some(pulse) => self.ear.take(&pulse),
            None => Said {
                frame: self.between(lines),
                pulse: None,
            },
        }
    }

    /// At the end of a capture, answers what the frame under way is, and whether the clock is low. If it is low, its fall may
    /// be the last edge of the frame.
    pub fn end(&self) -> Said
        ensures frame { result.frame ≡ frame_at_end self.now }
        ensures pulse { result.pulse ≡ pulse_at_end self.now }
    {
        let Clock {
            lines,
            fall,
            at_fall,
        } = self.clock;
        if lines.clk {
            return Said {
                frame: self.ear.end_high(),
                pulse: None,
            };
        }
        Said {
            frame: self.ear.end_low(fall, at_fall),
            pulse: Some(Timed {
                time: fall,
                finding: Finding::StaysLow,
            }),
        }
    }
}
