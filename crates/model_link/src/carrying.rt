//! A byte over the link.

ghost use Rattle.std.specs.Prelude.{◌≡◌};
ghost use Rattle.model_controller.specs.ByteTime.{arriving as arriving_of};

use crate::running::Running;
use board_terms::HostEvent;
use ctl_link::Link;
use model_controller::{Meeting, UnderWay, sent_or_cut};
use std::alloc::AllocError;

/// The cycles from a byte's first to the one in which it ends.
const BYTE: u64 = 320;

/// The cycles from the first of a byte of the keyboard to the one from which on it can't be broken off.
const OPEN: u64 = 288;

impl Running {
    ghost use Rattle.std.specs.Prelude.{◌≡◌, ℕ, ◌<◌, ◌^◌, true, false, IfOk};
    ghost use Rattle.ctl_link.specs.Empty.{is_held};
    ghost use Rattle.ctl_link.specs.Link.{is_busy};
    ghost use Rattle.model_controller.specs.ByteTime.{happened_at, Begins, Closes, Arrives, IsWhole, carried, ended_as};
    ghost use Rattle.model_link.specs.Passing.{MayBegin};

    /// The cycles of a byte, 321 from `now` on, which is at offset 288, by what begins there. Answers the meeting.
    pub(crate) fn carry(
        &mut self,
        events: &[HostEvent],
        begins: Meeting,
        now: u64,
    ) -> Result<Meeting, AllocError>
        requires near { now < 2 ^ 62 }
        requires may_begin { MayBegin begins self.old.port.link }
        ensures side { IfOk result (λ m. self.new ≡ carried events.now begins now self.old) }
        ensures meeting { IfOk result (λ m. m ≡ ended_as events.now begins now self.old) }
    {
        match begins {
            Meeting::Sent(byte) => self.send(events, byte, now),
            Meeting::Got(_) => {
                self.hand(events, now)?;
                Ok(begins)
            }
            Meeting::Inhibited | Meeting::Idle | Meeting::Cut => {
                self.run_on(events, now, now + BYTE + 1)?;
                Ok(begins)
            }
        }
    }

    /// A byte of the keyboard begins, and arrives if it isn't broken off. Answers the meeting.
    fn send(&mut self, events: &[HostEvent], byte: u8, now: u64) -> Result<Meeting, AllocError>
        requires near { now < 2 ^ 62 }
        requires may_begin { is_held self.old.port.link ≡ false }
        ensures side { IfOk result (λ m. self.new ≡ carried events.now (Meeting.Sent byte) now self.old) }
        ensures meeting { IfOk result (λ m. m ≡ ended_as events.now (Meeting.Sent byte) now self.old) }
    {
        self.begin_sending();
        self.run_on(events, now, now + OPEN)?;
        self.close();
        self.run_on(events, now + OPEN, now + BYTE)?;
        let last = self.link();
        self.arrive(now + BYTE, byte);
        self.run_on(events, now + BYTE, now + BYTE + 1)?;
        Ok(sent_or_cut(byte, &last))
    }

    /// A byte for the keyboard begins, and is handed over whole, whichever it is.
    fn hand(&mut self, events: &[HostEvent], now: u64) -> Result<(), AllocError>
        requires near { now < 2 ^ 62 }
        requires may_begin { is_held self.old.port.link ≡ false }
        ensures { IfOk result (λ u. (byte : ℕ) → self.new ≡ carried events.now (Meeting.Got byte) now self.old) }
    {
        self.begin_handing();
        self.run_on(events, now, now + BYTE)?;
        self.hand_over();
        self.run_on(events, now + BYTE, now + BYTE + 1)?;
        Ok(())
    }

    /// A byte of the keyboard begins: it takes the flip that is pending, and may be broken off.
    fn begin_sending(&mut self)
        requires { is_held self.old.port.link ≡ false }
        ensures { (now : ℕ) → self.new ≡ record self.old { port = happened_at now (Begins true) self.old.port } }
    {
        let flip = self.desk.port.take_flip();
        self.desk.port.link = Link::Busy(UnderWay {
            from_keyboard: true,
            flip,
            breakable: true,
        });
    }

    /// A byte for the keyboard begins.
    fn begin_handing(&mut self)
        requires { is_held self.old.port.link ≡ false }
        ensures { (now : ℕ) → self.new ≡ record self.old { port = happened_at now (Begins false) self.old.port } }
    {
        self.desk.port.link = Link::Busy(UnderWay {
            from_keyboard: false,
            flip: None,
            breakable: false,
        });
    }

    /// The byte under way can't be broken off any more.
    fn close(&mut self)
        ensures { (now : ℕ) → self.new ≡ record self.old { port = happened_at now Closes self.old.port } }
    {
        if let Link::Busy(under_way) = self.desk.port.link {
            self.desk.port.link = Link::Busy(UnderWay {
                breakable: false,
                ..under_way
            });
        }
    }

    /// The keyboard's byte arrives, if it is still under way; it comes wrong if noise turned a bit of it round.
    fn arrive(&mut self, now: u64, byte: u8)
        ensures { self.new ≡ record self.old { port = happened_at now (Arrives byte) self.old.port } }
    {
        if let Link::Busy(under_way) = self.desk.port.link {
            self.desk.port.receive(now, arriving(under_way.flip, byte));
        }
    }

    /// The byte for the keyboard is whole.
    fn hand_over(&mut self)
        requires { is_busy self.old.port.link ≡ true }
        ensures { (now : ℕ) → self.new ≡ record self.old { port = happened_at now IsWhole self.old.port } }
    {
        self.desk.port.hand_over();
    }
}

/// A byte as it arrives, by the bit of its frame that noise turned round, if any: whole, or wrong (`None`).
fn arriving(flip: Option<u8>, byte: u8) -> Option<u8>
    ensures { result ≡ arriving_of flip byte }
{
    match flip {
        None => Some(byte),
        Some(_) => None,
    }
}
