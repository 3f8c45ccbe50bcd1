//! The controller with its link.

ghost use Rattle.std.specs.Prelude.{◌≡◌, ◌+◌, None, false, nat_le};
ghost use Rattle.ctl_link.specs.Empty.{IsEmptyUnlessHeld};
ghost use Rattle.ctl_link.specs.Link.{broken_off, filled_by, handed_over, held_since, moves_link, port_at_start};
ghost use Rattle.ctl_link.specs.Link.{received, settled, takes_input};
ghost use Rattle.ctl_link.specs.Pulls.{BeginsPull, KeepsPull};

use crate::link::Link;
use crate::passing::Passing;
use ctl_core::{Controller, Did, Received};

/// How many cycles a pull of the clock lasts at least. Source: our own.
const LEAST_PULL: u64 = 64;

/// The command by which the keyboard is asked to send its last byte again. Source: PC/AT Technical Reference, keyboard,
/// commands.
const RESEND: u8 = 0xfe;

/// The controller with its link to the keyboard.
#[derive(Drop)]
pub struct LinkEnd<F> {
    /// The buffers, the command byte and the commands.
    pub core: Controller,
    /// The cycle in which the output buffer was last filled, 0 at first.
    pub filled: u64,
    /// The link.
    pub link: Link<F>,
    /// Whether a reply of the keyboard is awaited.
    pub awaits: bool,
    /// The bit that noise turns round in the next frame of the keyboard, if any.
    pub flip: Option<u8>,
}

/// Whether a pull of the clock since this cycle has lasted long enough.
fn is_long(since: u64, now: u64) -> bool
    ensures { result ≡ nat_le (since + 64) now }
{
    now >= LEAST_PULL && since <= now - LEAST_PULL
}

impl<F: Drop> LinkEnd<F> {
    /// The controller at its start, with its link free and no reply awaited.
    pub fn new() -> LinkEnd<F>
        ensures start { result ≡ port_at_start F }
        ensures empty { IsEmptyUnlessHeld result }
    {
        LinkEnd {
            core: Controller::new(),
            filled: 0,
            link: Link::Free,
            awaits: false,
            flip: None,
        }
    }

    /// A byte of the keyboard begins: it takes the flip that is pending, and none is pending any more.
    pub fn take_flip(&mut self) -> Option<u8>
        ensures flip { result ≡ self.old.flip }
        ensures port { self.new ≡ record self.old { flip = None } }
    {
        self.flip.take()
    }

    /// A byte of the keyboard has come whole in cycle `now`, or has come wrong (`None`), while the output buffer is
    /// empty. No reply is awaited any more, and the link is held from this cycle on; but if the byte came wrong and
    /// the controller doesn't give up, it asks for the byte again from this cycle on.
    pub fn receive(&mut self, now: u64, byte: Option<u8>)
        requires output_empty { self.old.core.output_full ≡ false }
        ensures port { self.new ≡ received now byte self.old }
        ensures empty { IsEmptyUnlessHeld self.new }
    {
        let received = match byte {
            Some(byte) => self.core.receive(byte, true),
            None => self.core.receive_wrong(),
        };
        self.note_filling(now);
        self.link = match received {
            Received::Bad => Link::Ask(RESEND, now),
            Received::Put | Received::Marked | Received::GaveUp => Link::Hold(now),
        };
        self.awaits = false;
    }

    /// A byte for the keyboard has gone whole: the link is free, and a reply is awaited.
    pub fn hand_over(&mut self)
        requires output_empty { self.old.core.output_full ≡ false }
        ensures port { self.new ≡ handed_over self.old }
        ensures empty { IsEmptyUnlessHeld self.new }
    {
        self.link = Link::Free;
        self.awaits = true;
    }

    /// What the controller does by itself at the end of cycle `now`. First it takes its input, if it may: the output
    /// buffer is empty, and the link is held, or is free while no reply is awaited. Then the link changes by itself: a
    /// free one is held if the output buffer is full or the keyboard disabled, and a pull of the clock ends once it
    /// has lasted 64 cycles and nothing is against it. Answers what the input taken did.
    pub fn settle(&mut self, now: u64) -> Did
        ensures port { self.new ≡ (settled now self.old).port }
        ensures did { result ≡ (settled now self.old).did }
        ensures empty { IsEmptyUnlessHeld self.old → IsEmptyUnlessHeld self.new }
        ensures pull_kept { KeepsPull now self.old.link self.new.link }
        ensures pull_begins { BeginsPull now self.old.link self.new.link }
    {
        let did = self.take_input(now);
        self.move_link(now);
        did
    }

    /// The input is taken, if it may be.
    fn take_input(&mut self, now: u64) -> Did
        ensures port { self.new ≡ (takes_input now self.old).port }
        ensures did { result ≡ (takes_input now self.old).did }
    {
        let Some(since) = self.held_since(now) else {
            return Did::Nothing;
        };
        if self.core.output_full() {
            return Did::Nothing;
        }
        let Some(did) = self.core.take_input() else {
            return Did::Nothing;
        };
        self.note_filling(now);
        if let Did::ToKeyboard(byte) = did {
            self.link = Link::Ask(byte, since);
        }
        did
    }

    /// Since when the link is held, if the input may be taken; a free link is held from now on.
    fn held_since(&self, now: u64) -> Option<u64>
        ensures { result ≡ held_since now self.now.awaits self.now.link }
    {
        match self.link {
            Link::Free if self.awaits => None,
            Link::Free => Some(now),
            Link::Hold(since) => Some(since),
            Link::Ask(_, _) | Link::Request(_) | Link::Busy(_) => None,
        }
    }

    /// The output buffer was filled in this cycle, if it is full after something done while it was empty.
    fn note_filling(&mut self, now: u64)
        ensures { self.new ≡ record self.old { filled = filled_by now self.old.core self.old.filled } }
    {
        if !self.core.output_full() {
            return;
        }
        self.filled = now;
    }

    /// The link by itself.
    fn move_link(&mut self, now: u64)
        ensures { self.new ≡ moves_link now self.old }
    {
        let stop = self.core.output_full() || self.core.is_disabled();
        match self.link {
            Link::Free => {
                if !self.awaits && stop {
                    self.link = Link::Hold(now);
                }
            }
            Link::Hold(since) => {
                if !stop && is_long(since, now) {
                    self.link = Link::Free;
                }
            }
            Link::Ask(byte, since) => {
                if is_long(since, now) {
                    self.link = Link::Request(byte);
                }
            }
            Link::Request(_) | Link::Busy(_) => {}
        }
    }
}

impl<F: Passing + Drop> LinkEnd<F> {
    /// A waiting input breaks off a byte under way in cycle `now`, if that may still be broken off and no reply is
    /// awaited: the link is held from this cycle on. Source: PC/AT Technical Reference, keyboard interface.
    pub fn break_off(&mut self, now: u64)
        ensures port { self.new ≡ broken_off F.breaks now self.old }
        ensures empty { IsEmptyUnlessHeld self.old → IsEmptyUnlessHeld self.new }
    {
        let Link::Busy(under_way) = &self.link else {
            return;
        };
        if under_way.may_break() && !self.awaits && self.core.input_full() {
            self.link = Link::Hold(now);
        }
    }
}
