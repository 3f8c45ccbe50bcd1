//! The key queue.

use arrayvec::ArrayVec;
use std::marker::Model;

/// The codes that wait to be sent, in sixteen places of a byte each. A clause sees it as a `KeyQueue`: the bytes,
/// whether a code found no room, and whether a break is started.
#[derive(Drop)]
pub struct Queue {
    bytes: ArrayVec<u8, 16>,
    overrun: bool,
    break_started: bool,
}

impl Model for Queue {
    ghost use Rattle.std.specs.Prelude.{◌≤◌, length};
    ghost use Rattle.model_keyboard.specs.Queue.{KeyQueue};

    ghost Value = { KeyQueue };

    ghost view = { λ q. record {
      bytes = q.bytes.items;
      overrun = q.overrun;
      break_started = q.break_started;
    } };

    ghost invariant = { λ q. length q.bytes.items ≤ 16 };
}

impl Queue {
    ghost use Rattle.std.specs.Prelude.{◌≡◌, ◌≤◌, length, IsSome};
    ghost use Rattle.model_keyboard.specs.Codes.{IsCode};
    ghost use Rattle.model_keyboard.specs.Queue.{empty, enter, first, drop_first, clear};

    /// A queue that is empty, with no overrun and no break started.
    pub fn new() -> Queue
        ensures empty { result ≡ empty }
    {
        Queue {
            bytes: ArrayVec::new(),
            overrun: false,
            break_started: false,
        }
    }

    /// Enters a code of one or two bytes, whole. If it finds no room there is an overrun, and until that is reported all
    /// codes are lost.
    pub fn enter(&mut self, code: &[u8])
        requires code { IsCode code.now }
        ensures entered { self.new ≡ enter code.now self.old }
        ensures sixteen { length self.new.bytes ≤ 16 }
    {
        if self.overrun || self.bytes.try_extend_from_slice(code).is_err() {
            self.overrun = true;
        }
    }

    /// The byte to be sent next: the queue's first, or 00 if it is empty after an overrun. None exactly if it is
    /// empty and there was none.
    pub fn first(&self) -> Option<u8>
        ensures first { result ≡ first self.now }
    {
        match self.bytes.first() {
            Some(byte) => Some(*byte),
            None if self.overrun => Some(0x00),
            None => None,
        }
    }

    /// Takes the first byte away, which may be the 00 that reports an overrun. F0 starts a break, and the byte after it
    /// ends it.
    pub fn drop_first(&mut self)
        requires some { IsSome (first self.old) }
        ensures dropped { self.new ≡ drop_first self.old }
    {
        match self.bytes.pop_at(0) {
            Some(byte) => self.break_started = byte == 0xf0 && !self.break_started,
            None => self.overrun = false,
        }
    }

    /// Empties the queue, but for the code of a break whose F0 is sent already.
    pub fn clear(&mut self)
        ensures cleared { self.new ≡ clear self.old }
    {
        self.bytes.truncate(if self.break_started { 1 } else { 0 });
        self.overrun = false;
    }
}
