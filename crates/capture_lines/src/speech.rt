//! What the bytes of both sides say of the keyboard, of its codes and of what is asked for again.

ghost use Rattle.std.specs.Prelude.{◌≡◌, if◌then◌else◌};
ghost use Rattle.capture_lines.specs.Speech.{after_byte, after_frame, after_host, after_other, again_of, asked_on, is_code, is_of_set_1, is_xt, nothing_said, said_so, with_code};
ghost use Rattle.capture_lines.specs.Counting.{one_more};

use crate::counts::is_right;
use capture_frames::{Finding, Whole};

/// The host's byte that asks for the last byte again.
const AGAIN: u8 = 0xfe;

/// The keyboard's byte before the code of a key that is released.
const BREAK: u8 = 0xf0;

/// What was said so far.
#[derive(Clone, Copy, Drop)]
pub(crate) struct Speech {
    /// The keyboard's last byte.
    last: Option<u8>,
    /// How often in a row the host asked for a byte again, and whether a frame of the keyboard came since.
    asked: u64,
    came: bool,
    /// Whether the last byte is a break's first, and whether any was.
    mark: bool,
    marked: bool,
    /// How many bytes are in code set 1 alone.
    set_1: u64,
    /// How many breaks had no code.
    lone: u64,
    /// How many bytes were asked for three times.
    thrice: u64,
}

/// Whether a byte is the code of a key.
fn is_code(byte: u8) -> bool
    ensures { result ≡ is_code byte }
{
    byte > 0 && byte <= 0x84
}

/// Whether a byte is in code set 1, as the break of a key, and in no other set.
fn is_of_set_1(byte: u8) -> bool
    ensures { result ≡ is_of_set_1 byte }
{
    byte > 0x84 && byte < 0xe0 && byte != 0xaa
}

/// A count, with one more if this is so.
fn more_if(count: u64, is_so: bool) -> u64
    ensures { result ≡ (if is_so then one_more count else count) }
{
    if is_so {
        count.saturating_add(1)
    } else {
        count
    }
}

impl Speech {
    /// Nothing was said.
    pub(crate) fn new() -> Speech
        ensures { result ≡ nothing_said }
    {
        Speech {
            last: None,
            asked: 0,
            came: false,
            mark: false,
            marked: false,
            set_1: 0,
            lone: 0,
            thrice: 0,
        }
    }

    /// How many breaks had no code.
    pub(crate) fn lone(&self) -> u64
        ensures { result ≡ self.now.lone }
    {
        self.lone
    }

    /// How many bytes were asked for three times.
    pub(crate) fn thrice(&self) -> u64
        ensures { result ≡ self.now.thrice }
    {
        self.thrice
    }

    /// Whether the codes are those of set 1: some are in no other set, and no break is marked.
    pub(crate) fn is_xt(&self) -> bool
        ensures { result ≡ is_xt self.now }
    {
        self.set_1 > 0 && !self.marked
    }

    /// After a frame of the keyboard.
    fn after_frame(self, byte: u8) -> Speech
        ensures { result ≡ after_frame byte self }
    {
        Speech {
            last: Some(byte),
            asked: if self.came { 0 } else { self.asked },
            came: true,
            ..self
        }
    }

    /// After a right byte of the keyboard.
    fn with_code(self, byte: u8) -> Speech
        ensures { result ≡ with_code byte self }
    {
        Speech {
            mark: byte == BREAK,
            marked: self.marked || byte == BREAK,
            set_1: more_if(self.set_1, is_of_set_1(byte)),
            lone: more_if(self.lone, self.mark && !is_code(byte)),
            ..self
        }
    }

    /// After the host asked for a byte again.
    fn asked_on(self) -> Speech
        ensures { result ≡ asked_on self }
    {
        let asked = more_if(self.asked, true);
        Speech {
            asked,
            came: false,
            thrice: more_if(self.thrice, asked == 3),
            ..self
        }
    }

    /// After another byte of the host.
    fn after_other(self) -> Speech
        ensures { result ≡ after_other self }
    {
        Speech {
            asked: 0,
            came: false,
            ..self
        }
    }

    /// After a frame of the host.
    fn after_host(self, frame: Whole) -> Speech
        ensures { result ≡ after_host frame self }
    {
        if frame.byte == AGAIN {
            self.asked_on()
        } else {
            self.after_other()
        }
    }

    /// After a frame of eleven edges.
    fn after_byte(self, frame: Whole) -> Speech
        ensures { result ≡ after_byte frame self }
    {
        if frame.from_host {
            return self.after_host(frame);
        }
        let heard = self.after_frame(frame.byte);
        if is_right(frame) {
            heard.with_code(frame.byte)
        } else {
            heard
        }
    }

    /// After a finding.
    pub(crate) fn after(self, finding: Finding) -> Speech
        ensures { result ≡ said_so finding self }
    {
        match finding {
            Finding::Byte(frame) => self.after_byte(frame),
            _ => self,
        }
    }

    /// The byte that a finding asks for again: the keyboard's last one.
    pub(crate) fn again(&self, finding: Finding) -> Option<u8>
        ensures { result ≡ again_of finding self.now }
    {
        match finding {
            Finding::Byte(frame) if frame.from_host && frame.byte == AGAIN => self.last,
            _ => None,
        }
    }
}
