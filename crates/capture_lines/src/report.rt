//! What was said so far.

ghost use Rattle.std.specs.Prelude.{◌≡◌, ◌++◌, IfOk, OnOk};
ghost use Rattle.capture_lines.specs.Captures.{again_lines, at_start, both, is_fault_alone, listed, reported, reported_all, summed_up};
ghost use Rattle.capture_lines.specs.Summary.{summary};
ghost use Rattle.capture_lines.specs.Receiving.{item_line, item_lines};

use crate::counts::Counts;
use crate::line::{again_line, finding_line, time_text};
use crate::receiver::Receiver;
use crate::speech::Speech;
use crate::summary::push_summary;
use crate::timing::Timing;
use capture_frames::{Said, Timed};
use capture_vcd::VcdFault;
use pc_tables::{Item, push_item};
use std::alloc::{AllocError, Global};
use std::marker::Model;

/// What was said so far: the lines, with what the PC keeps, the counts, and what the bytes say.
#[derive(Drop)]
pub(crate) struct Report {
    receiver: Receiver,
    counts: Counts,
    speech: Speech,
    text: Vec<u8>,
}

impl Model for Report {
    ghost use Rattle.capture_lines.specs.Captures as captures;

    ghost Value = { captures.Report };

    ghost view = { λ t. record { receiver = t.receiver; counts = t.counts; speech = t.speech; text = t.text.items } };
}

/// Appends the line of an item.
fn push_item_line(text: &mut Vec<u8>, time: u64, item: Item) -> Result<(), AllocError>
    ensures { OnOk result (text.new.items ≡ text.old.items ++ item_line time item) }
{
    text.extend_from_slice(&time_text(time))?;
    push_item(text, item)?;
    text.push(b'\n')?;
    Ok(())
}

/// Appends a line an item.
fn push_item_lines(text: &mut Vec<u8>, time: u64, items: &[Item]) -> Result<(), AllocError>
    ensures { OnOk result (text.new.items ≡ text.old.items ++ item_lines time items.now) }
{
    for item in items {
        push_item_line(text, time, *item)?;
    }
    Ok(())
}

/// Appends the line of a byte that is asked for again, if one is.
fn push_again(text: &mut Vec<u8>, time: u64, byte: Option<u8>) -> Result<(), AllocError>
    ensures { OnOk result (text.new.items ≡ text.old.items ++ again_lines time byte) }
{
    if let Some(byte) = byte {
        text.extend_from_slice(&again_line(time, byte))?;
    }
    Ok(())
}

/// Whether a dump has a fault, and there is no line before it.
fn is_fault_alone(fault: Option<VcdFault>, lines: &[u8]) -> bool
    ensures { result ≡ is_fault_alone fault lines.now }
{
    match (fault, lines) {
        (Some(_), []) => true,
        _ => false,
    }
}

impl Report {
    /// Nothing was said, and the PC is at power-on.
    pub(crate) fn new(alloc: Global) -> Result<Report, AllocError>
        ensures { IfOk result (λ report. report ≡ at_start) }
    {
        let receiver = Receiver::new(alloc)?;
        Ok(Report {
            receiver,
            counts: Counts::new(),
            speech: Speech::new(),
            text: Vec::new(alloc),
        })
    }

    /// Reports a finding.
    fn report_one(&mut self, timed: Timed) -> Result<(), AllocError>
        ensures { OnOk result (self.new ≡ reported timed self.old) }
    {
        self.counts.count(timed.finding);
        let items = self.receiver.hear(timed.finding);
        let again = self.speech.again(timed.finding);
        self.speech = self.speech.after(timed.finding);
        self.text.extend_from_slice(&finding_line(timed))?;
        push_again(&mut self.text, timed.time, again)?;
        push_item_lines(&mut self.text, timed.time, &items)?;
        Ok(())
    }

    /// Reports a finding, if there is one.
    fn report_if(&mut self, timed: Option<Timed>) -> Result<(), AllocError>
        ensures { OnOk result (self.new ≡ reported_all (listed timed) self.old) }
    {
        match timed {
            Some(timed) => self.report_one(timed),
            None => Ok(()),
        }
    }

    /// All that was said, the times outside their limits, and the summary; nothing if the dump has this fault, and no line
    /// is before it.
    #[tactic(auto, using(crate::proofs::Parts::alone_is_empty))]
    pub(crate) fn finish(
        self,
        timing: &Timing,
        fault: Option<VcdFault>,
    ) -> Result<Vec<u8>, AllocError>
        ensures { IfOk result (λ text. text.items
            ≡ summed_up fault (self.text ++ timing.now.text) (summary self.counts timing.now self.speech)) }
    {
        let Report {
            counts,
            speech,
            mut text,
            ..
        } = self;
        text.extend_from_slice(timing.text())?;
        if is_fault_alone(fault, &text) {
            return Ok(text);
        }
        push_summary(&mut text, &counts, timing, &speech)?;
        Ok(text)
    }

    /// Reports what a pulse ends, and what it is itself.
    #[tactic(auto, using(crate::proofs::Parts::reported_twice))]
    pub(crate) fn report_said(&mut self, said: Said) -> Result<(), AllocError>
        ensures { OnOk result (self.new ≡ reported_all (both said.frame said.pulse) self.old) }
    {
        self.report_if(said.frame)?;
        self.report_if(said.pulse)?;
        Ok(())
    }
}
