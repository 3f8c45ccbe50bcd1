//! The keyboard's state, and what the line sees of it.

use crate::queue::Queue;
use board_terms::{Matrix, Place};
use std::marker::Model;

/// The ticks of the power-on test.
pub(crate) const TEST_TICKS: u8 = 64;

/// What reports the end of the test, and stands for the last byte sent as long as there is none.
pub(crate) const TEST_PASSED: u8 = 0xaa;

/// What the next byte from the system is: a command, the rate byte, or the lights.
#[derive(Clone, Copy, Debug, PartialEq, Eq, Drop)]
pub enum Mode {
    Ready,
    WantRate,
    WantLights,
}

/// A reply that waits to be sent, and whether a reset is due once it is.
#[derive(Clone, Copy, Debug, PartialEq, Eq, Drop)]
pub struct Reply {
    pub byte: u8,
    pub resets: bool,
}

/// The key that repeats: its place, the ticks until its code is entered again, at least 1, and whether it was pressed
/// in the layer under Fn.
#[derive(Clone, Copy, Debug, PartialEq, Eq)]
pub struct Repeat {
    pub place: Place,
    pub count: u8,
    pub on_fn: bool,
}

/// The keyboard as a machine of ticks. A clause sees it as a `Keyboard`.
#[derive(Drop)]
pub struct TickModel {
    pub(crate) test: u8,
    pub(crate) enabled: bool,
    pub(crate) mode: Mode,
    pub(crate) reply: Option<Reply>,
    pub(crate) aa_due: bool,
    pub(crate) last: u8,
    pub(crate) queue: Queue,
    pub(crate) repeats: Option<Repeat>,
    pub(crate) rate: u8,
    pub(crate) lights: u8,
    pub(crate) held: Matrix,
}

impl Model for TickModel {
    ghost use Rattle.std.specs.Prelude.{◌≡◌, true};
    ghost use Rattle.model_keyboard.specs.Keyboard.{Keyboard, counts};

    ghost Value = { Keyboard };

    ghost view = { λ k. record {
      test = k.test;
      enabled = k.enabled;
      mode = k.mode;
      reply = k.reply;
      aa_due = k.aa_due;
      last = k.last;
      queue = k.queue;
      repeats = k.repeats;
      rate = k.rate;
      lights = k.lights;
      held = k.held;
    } };

    ghost invariant = { λ k. counts k.repeats ≡ true };
}

impl TickModel {
    ghost use Rattle.std.specs.Prelude.{◌≡◌, ◌==◌};
    ghost use Rattle.model_keyboard.specs.Keyboard.{at_power_on, offer};

    /// The keyboard at power-on, with the layout's rate byte: the test runs, and nothing is held, queued or lit.
    pub fn power_on(rate: u8) -> TickModel
        ensures start { result ≡ at_power_on rate }
    {
        TickModel {
            test: TEST_TICKS,
            enabled: true,
            mode: Mode::Ready,
            reply: None,
            aa_due: false,
            last: TEST_PASSED,
            queue: Queue::new(),
            repeats: None,
            rate,
            lights: 0,
            held: Matrix::new(),
        }
    }

    /// The byte that is offered to the line: the reply to a command, else AA if the test has just ended, else the
    /// queue's first; None exactly if there is none of them.
    pub fn offer(&self) -> Option<u8>
        ensures offer { result ≡ offer self.now }
    {
        match self.reply {
            Some(reply) => Some(reply.byte),
            None if self.aa_due => Some(TEST_PASSED),
            None => self.queue.first(),
        }
    }

    /// The lights: bit 0 Scroll, bit 1 Num, bit 2 Caps.
    pub fn lights(&self) -> u8
        ensures lights { result ≡ self.now.lights }
    {
        self.lights
    }

    /// Whether the power-on test has no ticks left.
    pub fn tested(&self) -> bool
        ensures tested { result ≡ (self.now.test == 0) }
    {
        self.test == 0
    }
}
