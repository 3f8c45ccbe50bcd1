//! Every byte of the system, in every mode of the model's keyboard: what it leaves, as the line shows it.

use crate::model::Bench;
use crate::rates::{Timing, measured, timing_of};
use board_terms::Place;
use layout_reader::read_layout;
use std::test::Fail;

/// What the next byte from the system is: a command, the rate byte, or the lights.
#[derive(Clone, Copy, PartialEq, Eq, Drop)]
enum Mode {
    Ready,
    WantRate,
    WantLights,
}

/// What a byte leaves: the reply and whether it resets, the mode, whether scanning is enabled, the rate byte's timing and the
/// lights, and whether the queue kept its byte.
#[derive(Clone, Copy, PartialEq, Eq, Drop)]
struct Left {
    reply: u8,
    resets: bool,
    mode: Mode,
    enabled: bool,
    rate: Timing,
    lights: u8,
    queued: bool,
}

/// The rate byte before the byte.
const RATE: u8 = 0x11;

/// How the keyboard is before the byte. The last byte sent was 33.
const BEFORE: Left = Left {
    reply: 0x00,
    resets: false,
    mode: Mode::Ready,
    enabled: true,
    rate: Timing {
        delay: 49,
        period: 29,
    },
    lights: 5,
    queued: true,
};

/// The timing of the default rate byte, 2C.
const DEFAULT: Timing = Timing {
    delay: 98,
    period: 20,
};

/// What a command leaves, by the manual's table.
fn commanded(byte: u8) -> Left {
    let taken = Left {
        reply: 0xfa,
        ..BEFORE
    };
    match byte {
        0xed => Left {
            mode: Mode::WantLights,
            ..taken
        },
        0xee => Left {
            reply: 0xee,
            ..BEFORE
        },
        0xf3 => Left {
            mode: Mode::WantRate,
            ..taken
        },
        0xf4 => Left {
            queued: false,
            ..taken
        },
        0xf5 => Left {
            queued: false,
            rate: DEFAULT,
            enabled: false,
            ..taken
        },
        0xf6 => Left {
            queued: false,
            rate: DEFAULT,
            ..taken
        },
        0xfe => Left {
            reply: 0x33,
            ..BEFORE
        },
        0xff => Left {
            resets: true,
            ..taken
        },
        _ => taken,
    }
}

/// What a byte with right parity leaves, by the manual's table: a command in any mode, a parameter where one is awaited.
fn expected(mode: Mode, byte: u8) -> Left {
    if byte >= 0xed {
        return commanded(byte);
    }
    match mode {
        Mode::WantRate if byte < 0x80 => Left {
            reply: 0xfa,
            rate: timing_of(byte),
            ..BEFORE
        },
        Mode::WantLights if byte < 0x80 => Left {
            reply: 0xfa,
            lights: byte & 7,
            ..BEFORE
        },
        _ => Left {
            reply: 0xfe,
            mode,
            ..BEFORE
        },
    }
}

/// Two keys that send no break: h, whose code is 33, and a, whose code is 1C.
const TWO_KEYS: &str = "format = 2\nkey = [\
    {key = \"h\", column = 0, row = 0, make_only = true},\
    {key = \"a\", column = 1, row = 0, make_only = true}]\n";

/// The bench with the places of its two keys.
#[derive(Drop)]
struct Probed {
    bench: Bench,
    h: Place,
    a: Place,
}

impl Probed {
    /// A key goes down and up.
    fn strike(&mut self, place: Place) -> bool {
        self.bench.key(place, true, false) && self.bench.key(place, false, false)
    }

    /// A byte comes from the system, and this reply is sent.
    fn command(&mut self, byte: u8, reply: u8) -> bool {
        self.bench.receive(byte, true);
        self.bench.send() == Some(reply)
    }

    /// The keyboard anew, in a mode: past its test, with its lights, with a code in its queue, and with 33 sent last. Returns
    /// whether all replies on the way are as they are to be.
    fn begin(&mut self, mode: Mode) -> bool {
        self.bench.power_on(RATE);
        let lit = self.bench.test()
            && self.command(0xed, 0xfa)
            && self.command(BEFORE.lights, 0xfa);
        let (h, a) = (self.h, self.a);
        let struck = self.strike(h) && self.strike(a);
        let in_mode = match mode {
            Mode::Ready => true,
            Mode::WantRate => self.command(0xf3, 0xfa),
            Mode::WantLights => self.command(0xed, 0xfa),
        };
        lit && struck && in_mode && self.bench.send() == Some(0x33)
    }

    /// The same, and then this byte comes. Returns the reply.
    fn receive(&mut self, mode: Mode, byte: u8, good: bool) -> Option<u8> {
        if !self.begin(mode) {
            return None;
        }
        self.bench.receive(byte, good);
        self.bench.offer()
    }

    /// The mode, by what is made of a byte that is no command.
    fn mode(&mut self) -> Option<Mode> {
        let lights = self.bench.lights();
        self.bench.receive(lights ^ 7, true);
        match self.bench.offer() {
            Some(0xfe) => Some(Mode::Ready),
            Some(0xfa) if self.bench.lights() == lights => Some(Mode::WantRate),
            Some(0xfa) => Some(Mode::WantLights),
            _ => None,
        }
    }

    /// Whether the queue kept its byte, and whether scanning is enabled: after an echo, which changes neither, the queue's byte
    /// is sent, and a key that is struck is entered.
    fn queued_and_enabled(&mut self) -> Option<(bool, bool)> {
        if !self.command(0xee, 0xee) {
            return None;
        }
        let queued = self.bench.offer() == Some(0x1c);
        let kept = self.bench.send().is_some();
        let h = self.h;
        if kept != queued || !self.strike(h) {
            return None;
        }
        let struck = self.bench.send();
        match (struck, self.bench.offer()) {
            (Some(0x33), None) => Some((queued, true)),
            (None, None) => Some((queued, false)),
            _ => None,
        }
    }

    /// The timing of the rate byte, after scanning is enabled, which empties the queue.
    fn rate(&mut self) -> Option<Timing> {
        if !self.command(0xf4, 0xfa) {
            return None;
        }
        let h = self.h;
        measured(&mut self.bench, h)
    }

    /// Whether the reply resets.
    fn resets(&mut self) -> bool {
        self.bench.send().is_some() && !self.bench.tested()
    }

    /// What a byte leaves in a mode.
    fn left_by(&mut self, mode: Mode, byte: u8, good: bool) -> Option<Left> {
        let reply = self.receive(mode, byte, good)?;
        let lights = self.bench.lights();
        let after = self.mode()?;
        let _ = self.receive(mode, byte, good)?;
        let resets = self.resets();
        if resets {
            let _ = self.receive(mode, byte, good)?;
        }
        let (queued, enabled) = self.queued_and_enabled()?;
        let rate = self.rate()?;
        Some(Left {
            reply,
            resets,
            mode: after,
            enabled,
            rate,
            lights,
            queued,
        })
    }
}

#[test]
fn every_byte_in_every_mode_leaves_what_the_manual_says(rt: HostRuntime) -> Result<(), Fail> {
    let mut probed = Probed {
        bench: Bench::new(read_layout(rt.alloc(), TWO_KEYS.as_bytes())?, RATE),
        h: Place::at(0, 0).ok_or("a place")?,
        a: Place::at(1, 0).ok_or("a place")?,
    };
    for mode in [Mode::Ready, Mode::WantRate, Mode::WantLights] {
        for byte in 0..=255u8 {
            let wanted = Some(expected(mode, byte));
            assert!(rt; probed.left_by(mode, byte, true) == wanted, "byte {byte}");
            let asked_again = Left {
                reply: 0xfe,
                mode,
                ..BEFORE
            };
            assert!(rt;
                probed.left_by(mode, byte, false) == Some(asked_again),
                "byte {byte}"
            );
        }
    }
    Ok(())
}
