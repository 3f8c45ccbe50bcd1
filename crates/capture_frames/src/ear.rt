//! Frames, by the pulses of the clock.

ghost use Rattle.std.specs.Prelude.{◌≡◌, false, true};
ghost use Rattle.capture_frames.specs.Frames.{asked, beginning, bit_of, edges, ended_high, ended_low, heard, heard_bit, heard_clock, heard_high, heard_hold, heard_level, held, is_begun, is_glitch, is_hold, is_late, is_request, lacks_one, of_frame, of_pulse, silent, stays_low, too_few, unfinished, whole, with_bit};

use crate::finding::{Finding, Timed, Whole};
use crate::frame_bits::{is_odd, value};
use crate::pulse::Pulse;
use arrayvec::ArrayVec;
use std::marker::Model;

/// The longest pulse that is too short to be anything, in nanoseconds.
const GLITCH: u64 = 5_000;

/// The shortest pulse that the host makes, in nanoseconds: a keyboard's are shorter.
const HOLD: u64 = 55_000;

/// The longest time from one edge of a frame to the next, in nanoseconds.
const GAP: u64 = 400_000;

/// The frame under way: who sends it, and the levels of data that are its bits so far. The host's frame has its start
/// bit from the request on, and one level more than the keyboard's, the acknowledgement. None is under way if it has no
/// bits.
#[derive(Drop)]
pub(crate) struct Ear {
    from_host: bool,
    bits: ArrayVec<bool, 12>,
    /// When its first edge was, or the request.
    began: u64,
    /// When its last edge was, or the request.
    since: u64,
}

impl Model for Ear {
    ghost use Rattle.capture_frames.specs.Frames.{Frame, IsUnderWay, frame};

    ghost Value = { Frame };

    ghost view = { λ e. frame e.from_host e.bits.items e.began e.since };

    ghost invariant = { λ e. IsUnderWay (frame e.from_host e.bits.items e.began e.since) };
}

/// What a pulse ends, and what it is itself, if that is more than a bit.
#[derive(Clone, Copy, Debug, PartialEq, Eq, Drop)]
pub struct Said {
    pub frame: Option<Timed>,
    pub pulse: Option<Timed>,
}

/// Whether a pulse is too short to be anything. No pulse rises before it falls.
fn is_glitch(pulse: &Pulse) -> bool
    ensures { result ≡ is_glitch pulse.now }
{
    pulse.rise.saturating_sub(pulse.fall) <= GLITCH
}

/// Whether a pulse is so long that the host makes it.
fn is_hold(pulse: &Pulse) -> bool
    ensures { result ≡ is_hold pulse.now }
{
    pulse.rise.saturating_sub(pulse.fall) >= HOLD
}

/// A finding at a pulse.
fn of_pulse(pulse: &Pulse, finding: Finding) -> Option<Timed>
    ensures { result ≡ of_pulse pulse.now finding }
{
    Some(Timed {
        time: pulse.fall,
        finding,
    })
}

impl Ear {
    /// No frame is under way.
    pub(crate) fn new() -> Ear
        ensures silent { result ≡ silent }
    {
        Ear {
            from_host: false,
            bits: ArrayVec::new(),
            began: 0,
            since: 0,
        }
    }

    /// Whether a frame is under way.
    fn is_begun(&self) -> bool
        ensures { result ≡ is_begun self.now }
    {
        !self.bits.is_empty()
    }

    /// Whether the host has asked, and no edge of its frame has been.
    fn is_request(&self) -> bool
        ensures { result ≡ is_request self.now }
    {
        self.from_host && self.bits.len() == 1
    }

    /// Whether a fall of the clock comes too late to be of the frame.
    fn is_late(&self, fall: u64) -> bool
        ensures { result ≡ is_late fall self.now }
    {
        self.is_begun() && !self.is_request() && fall.saturating_sub(self.since) > GAP
    }

    /// How many edges the frame has so far.
    fn edges(&self) -> u8
        ensures { result ≡ edges self.now }
    {
        let levels = self.bits.len() as u8;
        if self.from_host {
            levels.saturating_sub(1)
        } else {
            levels
        }
    }

    /// Whether all levels of the frame are known but its last.
    fn lacks_one(&self) -> bool
        ensures { result ≡ lacks_one self.now }
    {
        self.bits.len() == if self.from_host { 11 } else { 10 }
    }

    /// The bit that a pulse is.
    fn bit_of(&self, pulse: &Pulse) -> bool
        ensures { result ≡ bit_of pulse.now self.now }
    {
        if self.from_host && self.bits.len() < 11 {
            pulse.at_rise
        } else {
            pulse.at_fall
        }
    }

    /// What the frame is with its last level.
    fn whole(&self, last: bool) -> Whole
        requires { lacks_one self.now ≡ true }
        ensures { result ≡ whole last self.now }
    {
        let bits = self.bits.as_slice();
        Whole {
            from_host: self.from_host,
            byte: value(&bits[1..9]),
            start: !bits[0],
            parity: is_odd(&bits[1..10]),
            stop: if self.from_host { bits[10] } else { last },
            acknowledged: !(self.from_host && last),
        }
    }

    /// A finding at the time at which the frame began.
    fn found(&self, finding: Finding) -> Option<Timed>
        ensures { result ≡ of_frame self.now finding }
    {
        Some(Timed {
            time: self.began,
            finding,
        })
    }

    /// That no other edge came in time, or that the host gave its request up.
    fn too_few(&self) -> Option<Timed>
        ensures { result ≡ of_frame self.now (too_few self.now) }
    {
        self.found(Finding::Few(self.from_host, self.edges()))
    }

    /// When the frame began that has a bit at this time.
    fn beginning(&self, time: u64) -> u64
        ensures { result ≡ beginning time self.now }
    {
        if self.is_begun() { self.began } else { time }
    }

    /// With a bit more, which isn't the last level.
    fn push(&mut self, time: u64, bit: bool)
        requires { lacks_one self.old ≡ false }
        ensures { self.new ≡ with_bit time bit self.old }
    {
        let began = self.beginning(time);
        self.bits.push(bit);
        self.began = began;
        self.since = time;
    }

    /// Takes the level of data while the clock is high. If it is high, the host gives its request up. Answers the frame that
    /// this ends.
    pub(crate) fn take_high(&mut self, dat: bool) -> Option<Timed>
        ensures left { self.new ≡ (heard_high dat self.old).left }
        ensures frame { result ≡ (heard_high dat self.old).frame }
    {
        if !dat || !self.is_request() {
            return None;
        }
        let frame = self.too_few();
        *self = Ear::new();
        frame
    }

    /// Takes a bit of a frame, which may be its last.
    fn take_level(&mut self, time: u64, bit: bool) -> Said
        ensures left { self.new ≡ (heard_level time bit self.old).left }
        ensures frame { result.frame ≡ (heard_level time bit self.old).frame }
        ensures pulse { result.pulse ≡ (heard_level time bit self.old).pulse }
    {
        if !self.lacks_one() {
            self.push(time, bit);
            return Said {
                frame: None,
                pulse: None,
            };
        }
        let frame = self.found(Finding::Byte(self.whole(bit)));
        *self = Ear::new();
        Said { frame, pulse: None }
    }

    /// Takes a pulse of the keyboard's clock that isn't late.
    fn take_bit(&mut self, pulse: &Pulse) -> Said
        ensures left { self.new ≡ (heard_bit pulse.now self.old).left }
        ensures frame { result.frame ≡ (heard_bit pulse.now self.old).frame }
        ensures pulse { result.pulse ≡ (heard_bit pulse.now self.old).pulse }
    {
        if self.is_begun() || !pulse.at_fall {
            let bit = self.bit_of(pulse);
            return self.take_level(pulse.fall, bit);
        }
        *self = Ear::new();
        Said {
            frame: None,
            pulse: of_pulse(pulse, Finding::Stray),
        }
    }

    /// Takes a pulse of the keyboard's clock.
    fn take_clock(&mut self, pulse: &Pulse) -> Said
        ensures left { self.new ≡ (heard_clock pulse.now self.old).left }
        ensures frame { result.frame ≡ (heard_clock pulse.now self.old).frame }
        ensures pulse { result.pulse ≡ (heard_clock pulse.now self.old).pulse }
    {
        if !self.is_late(pulse.fall) {
            return self.take_bit(pulse);
        }
        let frame = self.too_few();
        *self = Ear::new();
        let said = self.take_bit(pulse);
        Said {
            frame,
            pulse: said.pulse,
        }
    }

    /// What a fall of the clock ends, at which data has this level, if the clock stays low. `broken` says what the frame is
    /// if it isn't whole.
    fn stay_low(&self, fall: u64, at_fall: bool, broken: Finding) -> Option<Timed>
        ensures { result ≡ stays_low fall at_fall broken self.now }
    {
        if !self.is_begun() {
            None
        } else if self.is_late(fall) {
            self.too_few()
        } else if self.lacks_one() {
            self.found(Finding::Byte(self.whole(at_fall)))
        } else {
            self.found(broken)
        }
    }

    /// What a hold of the host ends.
    fn held(&self, pulse: &Pulse) -> Option<Timed>
        ensures { result ≡ held pulse.now self.now }
    {
        let cut = Finding::Cut(self.from_host, self.edges());
        self.stay_low(pulse.fall, pulse.at_fall, cut)
    }

    /// That the capture has no other edge of the frame.
    fn unfinished(&self) -> Finding
        ensures { result ≡ unfinished self.now }
    {
        Finding::Unfinished(self.from_host, self.edges())
    }

    /// What the frame is at the end of a capture at which the clock is low since a time, with this level of data then.
    pub(crate) fn end_low(&self, fall: u64, at_fall: bool) -> Option<Timed>
        ensures { result ≡ ended_low fall at_fall self.now }
    {
        self.stay_low(fall, at_fall, self.unfinished())
    }

    /// What the frame is at the end of a capture at which the clock is high.
    pub(crate) fn end_high(&self) -> Option<Timed>
        ensures { result ≡ ended_high self.now }
    {
        if self.is_begun() {
            self.found(self.unfinished())
        } else {
            None
        }
    }

    /// The host asks at this time, and data is low: its start bit.
    fn ask(&mut self, time: u64)
        ensures { self.new ≡ asked time }
    {
        *self = Ear::new();
        self.from_host = true;
        self.bits.push(false);
        self.began = time;
        self.since = time;
    }

    /// Takes a pulse of the host.
    fn take_hold(&mut self, pulse: &Pulse) -> Said
        ensures left { self.new ≡ (heard_hold pulse.now self.old).left }
        ensures frame { result.frame ≡ (heard_hold pulse.now self.old).frame }
        ensures pulse { result.pulse ≡ (heard_hold pulse.now self.old).pulse }
    {
        let frame = self.held(pulse);
        if pulse.at_rise {
            *self = Ear::new();
        } else {
            self.ask(pulse.rise);
        }
        Said {
            frame,
            pulse: of_pulse(pulse, Finding::Hold(!pulse.at_rise)),
        }
    }

    /// Takes a pulse of the clock, by its width: at most 5 µs is a glitch, at least 55 µs is the host's, and all others are
    /// the keyboard's. Answers what the pulse ends, and what it is itself, if that is more than a bit.
    pub(crate) fn take(&mut self, pulse: &Pulse) -> Said
        ensures left { self.new ≡ (heard pulse.now self.old).left }
        ensures frame { result.frame ≡ (heard pulse.now self.old).frame }
        ensures pulse { result.pulse ≡ (heard pulse.now self.old).pulse }
    {
        if is_glitch(pulse) {
            return Said {
                frame: self.take_high(pulse.at_rise),
                pulse: of_pulse(pulse, Finding::Glitch),
            };
        }
        if is_hold(pulse) {
            self.take_hold(pulse)
        } else {
            self.take_clock(pulse)
        }
    }
}
