//! Frames that are distorted at one pulse, each before a frame that isn't. Times are in nanoseconds.

ghost use Rattle.std.specs.Prelude.{◌≤◌};

use board_terms::{Lines, frame_of};
use capture_frames::{Finding, Listener, Timed, Whole};
use std::test::Fail;

/// What is done to a frame, at one of its eleven pulses.
#[derive(Clone, Copy, Debug)]
enum Distortion {
    /// The capture begins with the pulse.
    Begun,
    /// The pulse is missing.
    Missing,
    /// Data has the other level.
    Flipped,
    /// A pulse of 2 µs comes after it.
    Glitch,
    /// Its fall bounces.
    Bounce,
    /// A pulse of 20 µs comes after it.
    Extra,
    /// The host holds the clock from its fall on.
    Held,
}

const ALL: [Distortion; 7] = [
    Distortion::Begun,
    Distortion::Missing,
    Distortion::Flipped,
    Distortion::Glitch,
    Distortion::Bounce,
    Distortion::Extra,
    Distortion::Held,
];

impl Distortion {
    /// Whether a frame's pulse comes at all if the frame is distorted at another.
    fn leaves(self, pulse: usize, at: usize) -> bool {
        match self {
            Distortion::Begun => pulse >= at,
            Distortion::Held => pulse <= at,
            _ => true,
        }
    }

    /// Whether the frame is right to whoever listens to both wires.
    fn is_harmless(self, at: usize) -> bool {
        match self {
            Distortion::Begun => at == 0,
            Distortion::Glitch | Distortion::Bounce => true,
            Distortion::Extra | Distortion::Held => at == 10,
            Distortion::Missing | Distortion::Flipped => false,
        }
    }
}

/// Hears a pulse of this width. Answers the frame that it ends.
fn pulse(listener: &mut Listener, fall: u64, width: u64, dat: bool) -> Option<Timed>
    requires fall { fall ≤ 2000000000 }
    requires width { width ≤ 1000000 }
{
    let _ = listener.hear(fall, Lines { clk: false, dat });
    listener.hear(fall + width, Lines { clk: true, dat }).frame
}

/// Hears the pulse of a bit, distorted.
fn distorted(listener: &mut Listener, fall: u64, bit: bool, distortion: Distortion) -> Option<Timed>
    requires { fall ≤ 1900000000 }
{
    match distortion {
        Distortion::Begun => pulse(listener, fall, 40_000, bit),
        Distortion::Missing => None,
        Distortion::Flipped => pulse(listener, fall, 40_000, !bit),
        Distortion::Glitch => {
            let frame = pulse(listener, fall, 40_000, bit);
            let _ = pulse(listener, fall + 50_000, 2_000, bit);
            frame
        }
        Distortion::Bounce => {
            let _ = pulse(listener, fall, 2_000, bit);
            pulse(listener, fall + 4_000, 36_000, bit)
        }
        Distortion::Extra => {
            let frame = pulse(listener, fall, 40_000, bit);
            let extra = pulse(listener, fall + 50_000, 20_000, bit);
            if frame.is_some() { frame } else { extra }
        }
        Distortion::Held => pulse(listener, fall, 100_000, bit),
    }
}

/// Hears a byte's frame, distorted at one of its pulses, or at none if that is past the last. Answers the last frame that a
/// pulse ends.
fn hear_frame(
    listener: &mut Listener,
    byte: u8,
    start: u64,
    distortion: Distortion,
    at: usize,
) -> Option<Timed>
    requires { start ≤ 1000000000 }
{
    let mut found = None;
    for (place, bit) in frame_of(byte).bits.iter().enumerate() {
        let fall = start + 80_000 * place as u64;
        let frame = if place == at {
            distorted(listener, fall, *bit, distortion)
        } else if distortion.leaves(place, at) {
            pulse(listener, fall, 40_000, *bit)
        } else {
            None
        };
        if frame.is_some() {
            found = frame;
        }
    }
    found
}

/// Whether a frame is this byte of the keyboard, with nothing wrong.
fn is_right(frame: Option<Timed>, byte: u8) -> bool {
    let right = Whole {
        from_host: false,
        byte,
        start: true,
        parity: true,
        stop: true,
        acknowledged: true,
    };
    frame.is_some_and(|timed| timed.finding == Finding::Byte(right))
}

#[test]
fn a_distorted_frame_is_named_and_the_next_one_is_right(rt: HostRuntime) -> Result<(), Fail> {
    for distortion in ALL.iter() {
        for at in 0..11 {
            let mut listener = Listener::new();
            let first = hear_frame(&mut listener, 0x1c, 1_000_000, *distortion, at);
            assert!(rt;
                is_right(first, 0x1c) == distortion.is_harmless(at),
                "{distortion:?} at {at}"
            );
            let _ = pulse(&mut listener, 3_000_000, 100_000, true);
            let second = hear_frame(&mut listener, 0xf0, 10_000_000, Distortion::Missing, 11);
            assert!(rt; is_right(second, 0xf0), "after {distortion:?} at {at}");
        }
    }
    Ok(())
}
