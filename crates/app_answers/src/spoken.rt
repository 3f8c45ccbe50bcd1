//! What was come to, and what of it is still to be said.

ghost use Rattle.std.specs.Prelude.{◌≡◌};
ghost use Rattle.app_answers.specs.Spoken.{still_to_say};

use app_words::Refusal;
use capture_vcd::VcdFault;
use io_edge::SinkFault;
use mcs48_core::Stuck;

/// What a command answers that isn't refused.
#[derive(Debug, Drop)]
pub enum Spoken {
    /// This text, nothing of which is said yet.
    Text(Vec<u8>),
    /// A text that was said line by line as it arose, all of it or up to a put that failed.
    Said(Result<(), SinkFault>),
    /// A log that was said line by line as it arose, all of it, and the byte without an instruction at which its run got
    /// stuck, of which nothing is said yet.
    Stuck(Stuck),
    /// What is found in a capture, all of which was said, and the first fault of its dump, of which nothing is said yet.
    Captured(VcdFault),
}

/// A text or a refusal, nothing of which is said yet.
pub fn to_say(answer: Result<Vec<u8>, Refusal>) -> Result<Spoken, Refusal>
    ensures { result ≡ still_to_say answer }
{
    match answer {
        Ok(text) => Ok(Spoken::Text(text)),
        Err(refusal) => Err(refusal),
    }
}
