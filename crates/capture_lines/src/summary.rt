//! The summary after all lines.

ghost use Rattle.std.specs.Prelude.{◌≡◌, ◌++◌, OnOk};
ghost use Rattle.capture_lines.specs.Summary.{codes_summary, span_line, summary, times_summary, xt_line};

use crate::counts::{Counts, push_count};
use crate::line::LineText;
use crate::speech::Speech;
use crate::timing::{Timing, push_span};
use capture_times::Periods;
use std::alloc::AllocError;

/// Appends a line with a time.
#[tactic(auto, unfolding(crate::specs::Summary::span_line))]
fn push_span_line(text: &mut Vec<u8>, what: &[u8], time: u64) -> Result<(), AllocError>
    ensures { OnOk result (text.new.items ≡ text.old.items ++ span_line what.now time) }
{
    let mut span = LineText::new();
    push_span(&mut span, time);
    text.extend_from_slice(what)?;
    text.extend_from_slice(&span)?;
    text.push(b'\n')?;
    Ok(())
}

/// Appends how many times were outside their limits, and the clock's periods.
fn push_timing(text: &mut Vec<u8>, count: u64, periods: Periods) -> Result<(), AllocError>
    ensures { OnOk result (text.new.items ≡ text.old.items ++ times_summary count periods) }
{
    push_count(text, b"times outside the limits: ", count)?;
    push_span_line(text, b"least clock period: ", periods.least)?;
    push_span_line(text, b"mean clock period: ", periods.mean())?;
    push_span_line(text, b"greatest clock period: ", periods.greatest)?;
    Ok(())
}

/// Appends that the keyboard is an XT's, if it is.
#[tactic(auto, unfolding(crate::specs::Summary::xt_line))]
fn push_xt(text: &mut Vec<u8>, is_it: bool) -> Result<(), AllocError>
    ensures { OnOk result (text.new.items ≡ text.old.items ++ xt_line is_it) }
{
    if is_it {
        text.extend_from_slice(b"these are codes of set 1: an XT keyboard\n")?;
    }
    Ok(())
}

/// Appends what the codes say.
fn push_codes(text: &mut Vec<u8>, speech: &Speech) -> Result<(), AllocError>
    ensures { OnOk result (text.new.items ≡ text.old.items ++ codes_summary speech.now) }
{
    push_xt(text, speech.is_xt())?;
    push_count(text, b"breaks without a code: ", speech.lone())?;
    push_count(text, b"bytes asked for three times: ", speech.thrice())?;
    Ok(())
}

/// Appends the summary.
pub(crate) fn push_summary(
    text: &mut Vec<u8>,
    counts: &Counts,
    timing: &Timing,
    speech: &Speech,
) -> Result<(), AllocError>
    ensures { OnOk result (text.new.items ≡ text.old.items ++ summary counts.now timing.now speech.now) }
{
    counts.push_frames(text)?;
    counts.push_pulses(text)?;
    push_timing(text, timing.count(), timing.periods())?;
    push_codes(text, speech)?;
    Ok(())
}
