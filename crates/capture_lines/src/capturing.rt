//! What is said of a capture.

ghost use Rattle.std.specs.Prelude.{◌≡◌, ◌<◌, length, IfOk, OnOk};
ghost use Rattle.capture_lines.specs.Captures.{capture_text, found_by, reported_all};
ghost use Rattle.capture_lines.specs.Timing.{timed_all};
ghost use Rattle.capture_vcd.specs.Reads.{reads_of};
ghost use Rattle.capture_frames.specs.Listening.{at_first};

use crate::report::Report;
use crate::timing::Timing;
use capture_frames::Listener;
use capture_vcd::{Reader, VcdFault};
use std::alloc::{AllocError, Global};

/// What is said of a capture, and the fault of its dump, if there is one.
#[derive(Drop)]
pub struct Captured {
    pub text: Vec<u8>,
    pub fault: Option<VcdFault>,
}

/// Reports all that is found in what is left of a dump, up to its first fault, which is answered.
#[tactic(auto, using(crate::proofs::Parts::reported_further))]
fn report_samples(
    report: &mut Report,
    timing: &mut Timing,
    reader: &mut Reader<'_>,
) -> Result<Option<VcdFault>, AllocError>
    ensures reported { OnOk result (report.new ≡ reported_all (found_by at_first reader.old.samples) report.old) }
    ensures timed { OnOk result (timing.new ≡ timed_all reader.old.samples timing.old) }
    ensures fault { IfOk result (λ fault. fault ≡ reader.old.fault) }
{
    let mut listener = Listener::new();
    'samples: loop {
        match reader.next_sample() {
            Ok(Some(sample)) => {
                let said = listener.hear(sample.time, sample.lines);
                report.report_said(said)?;
                timing.take(sample)?;
            }
            Ok(None) => {
                report.report_said(listener.end())?;
                return Ok(None);
            }
            Err(fault) => {
                report.report_said(listener.end())?;
                return Ok(Some(fault));
            }
        }
    }
}

/// What is said of a dump of fewer than 2^32 - 1 bytes with these names of the clock and of the data wire, up to its first
/// fault, and that fault; or an error if memory runs out.
///
/// A line has a time in microseconds with three decimals, and then a finding, or what the PC makes of it: `port` with the
/// byte that INT 09h reads, and what INT 09h does. The time is that at which the finding begins; lines come in the order
/// in which findings end. After them come the times outside the manual's limits, each with its limits in microseconds, and
/// the summary. If no line is before the dump's fault, the text is empty.
pub fn capture(alloc: Global, dump: &[u8], clk: &[u8], dat: &[u8]) -> Result<Captured, AllocError>
    requires size { length dump.now < 4294967295 }
    ensures text { IfOk result (λ captured. captured.text.items ≡ capture_text clk.now dat.now dump.now) }
    ensures fault { IfOk result (λ captured. captured.fault ≡ (reads_of clk.now dat.now dump.now).fault) }
{
    let mut reader = Reader::new(dump, clk, dat);
    let mut report = Report::new(alloc)?;
    let mut timing = Timing::new(alloc);
    let fault = report_samples(&mut report, &mut timing, &mut reader)?;
    let text = report.finish(&timing, fault)?;
    Ok(Captured { text, fault })
}
