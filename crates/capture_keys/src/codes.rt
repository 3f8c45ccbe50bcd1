//! The codes of keys in what is found on the wires.

ghost use Rattle.std.specs.Prelude.{◌≡◌};
ghost use Rattle.capture_lines.specs.Receiving.{is_right};
ghost use Rattle.capture_lines.specs.Speech.{is_code};
ghost use Rattle.capture_keys.specs.Codes.{after, after_frame, after_whole, at_first, code_at, code_in, code_of};
ghost use Rattle.capture_keys.specs.Codes.{is_new, is_old, is_reply, is_request, mark_after};

use capture_frames::{Finding, Timed, Whole};

/// The keyboard's byte before the code of a key that goes up.
const BREAK: u8 = 0xf0;

/// The byte that asks for the last byte again, from the host or from the keyboard.
const AGAIN: u8 = 0xfe;

/// The greatest code of a key.
const LAST_CODE: u8 = 0x84;

/// The keyboard's replies to a command and to an echo.
const DONE: u8 = 0xfa;

const ECHO: u8 = 0xee;

/// A code of a key: when the key moved, in nanoseconds, the code, and whether the key went down.
#[derive(Clone, Copy, Debug, PartialEq, Eq, Drop)]
pub(crate) struct Code {
    pub(crate) time: u64,
    pub(crate) byte: u8,
    pub(crate) down: bool,
}

/// What was heard so far.
#[derive(Clone, Copy, Drop)]
pub(crate) struct Codes {
    /// Whether the host asked for the last byte again, and whether that byte had come right.
    again: bool,
    known: bool,
    /// When the F0 came whose code is still to come, in nanoseconds.
    mark: Option<u64>,
}

/// Whether nothing is wrong with a frame.
fn is_right(frame: Whole) -> bool
    ensures { result ≡ is_right frame }
{
    frame.start && frame.parity && frame.stop && frame.acknowledged
}

/// Whether a byte is the code of a key of an AT keyboard.
fn is_code(byte: u8) -> bool
    ensures { result ≡ is_code byte }
{
    byte > 0 && byte <= LAST_CODE
}

/// Whether a byte is a reply to the host, which may come between F0 and its code.
fn is_reply(byte: u8) -> bool
    ensures { result ≡ is_reply byte }
{
    byte == DONE || byte == AGAIN || byte == ECHO
}

/// Whether the keyboard asks the host for a byte again.
fn is_request(frame: Whole) -> bool
    ensures { result ≡ is_request frame }
{
    is_right(frame) && frame.byte == AGAIN
}

/// When the F0 came that waits for its code after this byte, if one does.
fn mark_after(time: u64, byte: u8, mark: Option<u64>) -> Option<u64>
    ensures { result ≡ mark_after time byte mark }
{
    if byte == BREAK {
        return Some(time);
    }
    if is_reply(byte) { mark } else { None }
}

impl Codes {
    /// Before anything is heard.
    pub(crate) fn new() -> Codes
        ensures { result ≡ at_first }
    {
        Codes {
            again: false,
            known: false,
            mark: None,
        }
    }

    /// Whether the host asked again for a byte that had come right.
    fn is_old(&self) -> bool
        ensures { result ≡ is_old self.now }
    {
        self.again && self.known
    }

    /// Whether a frame of the keyboard says a byte that wasn't heard before.
    fn is_new(&self, frame: Whole) -> bool
        ensures { result ≡ is_new frame self.now }
    {
        is_right(frame) && !self.is_old()
    }

    /// After a frame of the keyboard.
    fn after_frame(self, time: u64, frame: Whole) -> Codes
        ensures { result ≡ after_frame time frame self }
    {
        Codes {
            again: false,
            known: is_right(frame) || self.is_old(),
            mark: if self.is_new(frame) {
                mark_after(time, frame.byte, self.mark)
            } else {
                self.mark
            },
        }
    }

    /// After a frame of eleven edges.
    fn after_whole(self, time: u64, frame: Whole) -> Codes
        ensures { result ≡ after_whole time frame self }
    {
        if frame.from_host {
            return Codes {
                again: frame.byte == AGAIN,
                ..self
            };
        }
        if is_request(frame) {
            self
        } else {
            self.after_frame(time, frame)
        }
    }

    /// After a finding.
    pub(crate) fn after(self, timed: Timed) -> Codes
        ensures { result ≡ after timed timed.finding self }
    {
        match timed.finding {
            Finding::Byte(frame) => self.after_whole(timed.time, frame),
            _ => self,
        }
    }

    /// The code that a byte is.
    fn code_at(&self, time: u64, byte: u8) -> Code
        ensures { result ≡ code_at time byte self.now }
    {
        Code {
            time: self.mark.unwrap_or(time),
            byte,
            down: self.mark.is_none(),
        }
    }

    /// The code that a frame is, if it is one.
    fn code_in(&self, time: u64, frame: Whole) -> Option<Code>
        ensures { result ≡ code_in time frame self.now }
    {
        if !frame.from_host && self.is_new(frame) && is_code(frame.byte) {
            Some(self.code_at(time, frame.byte))
        } else {
            None
        }
    }

    /// The code that a finding is, if it is one.
    pub(crate) fn code(&self, timed: Timed) -> Option<Code>
        ensures { result ≡ code_of timed timed.finding self.now }
    {
        match timed.finding {
            Finding::Byte(frame) => self.code_in(timed.time, frame),
            _ => None,
        }
    }
}
