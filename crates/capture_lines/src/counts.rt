//! How often each kind of finding comes, and the summary that says so.

ghost use Rattle.std.specs.Prelude.{◌≡◌, ◌++◌, OnOk};
ghost use Rattle.capture_lines.specs.Counting.{count_line, counted, frames_summary, none_yet, one_more, pulses_summary};
ghost use Rattle.capture_lines.specs.Receiving.{is_right};

use capture_frames::{Finding, Whole};
use std::alloc::AllocError;

/// How often each kind of finding came: frames of eleven edges, right and wrong; frames that the host broke off, and
/// those of which no other edge came; edges without a start bit; pulses that are too short; holds, without a request and
/// with one.
#[derive(Clone, Copy, Drop)]
pub(crate) struct Counts {
    pub(crate) right: u64,
    pub(crate) wrong: u64,
    pub(crate) cut: u64,
    pub(crate) part: u64,
    pub(crate) strays: u64,
    pub(crate) glitches: u64,
    pub(crate) holds: u64,
    pub(crate) requests: u64,
}

/// Whether nothing is wrong with a frame.
pub(crate) fn is_right(frame: Whole) -> bool
    ensures { result ≡ is_right frame }
{
    frame.start && frame.parity && frame.stop && frame.acknowledged
}

/// Counts one more, which stands still at the greatest value.
pub(crate) fn add_one(count: &mut u64)
    ensures { count.new ≡ one_more count.old }
{
    *count = count.saturating_add(1);
}

/// Appends a line of the summary.
#[tactic(auto, unfolding(crate::specs::Counting::count_line))]
pub(crate) fn push_count(text: &mut Vec<u8>, what: &[u8], count: u64) -> Result<(), AllocError>
    ensures { OnOk result (text.new.items ≡ text.old.items ++ count_line what.now count) }
{
    text.extend_from_slice(what)?;
    text.extend_from_slice(itoa::Buffer::new().format(count).as_bytes())?;
    text.push(b'\n')?;
    Ok(())
}

impl Counts {
    /// Nothing was found.
    pub(crate) fn new() -> Counts
        ensures { result ≡ none_yet }
    {
        Counts {
            right: 0,
            wrong: 0,
            cut: 0,
            part: 0,
            strays: 0,
            glitches: 0,
            holds: 0,
            requests: 0,
        }
    }

    /// Counts a finding. That the clock stays low isn't counted.
    pub(crate) fn count(&mut self, finding: Finding)
        ensures { self.new ≡ counted finding self.old }
    {
        match finding {
            Finding::Byte(frame) if is_right(frame) => add_one(&mut self.right),
            Finding::Byte(_) => add_one(&mut self.wrong),
            Finding::Few(_, _) | Finding::Unfinished(_, _) => add_one(&mut self.part),
            Finding::Cut(_, _) => add_one(&mut self.cut),
            Finding::Stray => add_one(&mut self.strays),
            Finding::Glitch => add_one(&mut self.glitches),
            Finding::Hold(true) => add_one(&mut self.requests),
            Finding::Hold(false) => add_one(&mut self.holds),
            Finding::StaysLow => {}
        }
    }

    /// Appends the summary of the frames.
    pub(crate) fn push_frames(&self, text: &mut Vec<u8>) -> Result<(), AllocError>
        ensures { OnOk result (text.new.items ≡ text.old.items ++ frames_summary self.now) }
    {
        push_count(text, b"right frames: ", self.right)?;
        push_count(text, b"wrong frames: ", self.wrong)?;
        push_count(text, b"broken off: ", self.cut)?;
        push_count(text, b"not whole: ", self.part)?;
        Ok(())
    }

    /// Appends the summary of the pulses.
    pub(crate) fn push_pulses(&self, text: &mut Vec<u8>) -> Result<(), AllocError>
        ensures { OnOk result (text.new.items ≡ text.old.items ++ pulses_summary self.now) }
    {
        push_count(text, b"edges without a start bit: ", self.strays)?;
        push_count(text, b"pulses too short: ", self.glitches)?;
        push_count(text, b"holds: ", self.holds)?;
        push_count(text, b"holds with a request: ", self.requests)?;
        Ok(())
    }
}
