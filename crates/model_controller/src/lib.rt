//! The keyboard controller in byte time: a byte begins and ends in given cycles of a tick, and nothing is known of what
//! carries it.
//!
//! This layer knows the PC's side of a cycle, and of a byte under way no more than which way it goes, whether noise
//! turns a bit of it round, and whether it may still be broken off. It knows ticks by their starts, and the meeting of
//! a tick: what passes over the link in it. It knows no wire, edge or frame, and no keyboard but what it offers. A tick
//! is 2,048 cycles, up to five more or less; cycles in it are counted as offsets from its start. Source: our own.
#![tactic(auto)]

ghost use Rattle.std.specs.Prelude.{◌≡◌};

mod meeting;

use ctl_link::Passing;
pub use meeting::{Meeting, meeting_of, sent_or_cut};

/// What is known of a byte under way.
#[derive(Clone, Copy, Debug, PartialEq, Eq, Drop)]
pub struct UnderWay {
    /// Whether the keyboard sends it; otherwise the controller does.
    pub from_keyboard: bool,
    /// The bit that noise turns round in its frame, if any.
    pub flip: Option<u8>,
    /// Whether a waiting input may still break it off.
    pub breakable: bool,
}

impl Passing for UnderWay {
    ghost use Rattle.model_controller.specs.ByteTime.{is_open};

    ghost breaks = { is_open };

    /// Whether a waiting input may still break it off.
    fn may_break(&self) -> bool {
        self.breakable
    }
}
