//! What is said of the times on the wires.

ghost use Rattle.std.specs.Prelude.{◌≡◌, ◌+◌, ◌≤◌, ◌++◌, length, OnOk};
ghost use Rattle.arrayvec.specs.ArrayVec.{array_vec_len};
ghost use Rattle.capture_lines.specs.Timing.{slip_line, slip_text, slipped, slipped_all, span_between, span_text, timed, untimed};

use crate::counts::add_one;
use crate::line::{LineText, digit, time_text};
use capture_times::{Periods, Slip, Slips, Watch};
use capture_vcd::Sample;
use hex_text::append;
use std::alloc::{AllocError, Global};
use std::marker::Model;

/// What was said of the times so far: what was seen of the wires, how many times were outside their limits, and the lines
/// that say so.
#[derive(Drop)]
pub(crate) struct Timing {
    watch: Watch,
    count: u64,
    text: Vec<u8>,
}

impl Model for Timing {
    ghost use Rattle.capture_lines.specs.Timing as timing;

    ghost Value = { timing.Timing };

    ghost view = { λ t. record { watch = t.watch; count = t.count; text = t.text.items } };
}

/// Appends a time of so many nanoseconds in microseconds, with three decimals.
pub(crate) fn push_span(text: &mut LineText, time: u64)
    requires room { array_vec_len text.old + 24 ≤ 128 }
    ensures text { text.new.items ≡ text.old.items ++ span_text time }
    ensures short { array_vec_len text.new ≤ array_vec_len text.old + 24 }
{
    append(text, itoa::Buffer::new().format(time / 1_000).as_bytes());
    append(
        text,
        &[b'.', digit(time / 100), digit(time / 10), digit(time)],
    );
}

/// Appends what is said before a time, the time, and what is said after it.
fn push_times(text: &mut LineText, before: &[u8], time: u64, after: &[u8])
    requires room { array_vec_len text.old + 80 ≤ 128 }
    requires before { length before.now ≤ 15 }
    requires after { length after.now ≤ 31 }
    ensures text { text.new.items ≡ text.old.items ++ span_between before.now time after.now }
    ensures short { array_vec_len text.new ≤ array_vec_len text.old + 70 }
{
    append(text, before);
    push_span(text, time);
    append(text, after);
}

/// Appends a time outside its limits, with them.
fn push_slip(text: &mut LineText, slip: Slip)
    requires room { array_vec_len text.old + 80 ≤ 128 }
    ensures text { text.new.items ≡ text.old.items ++ slip_text slip }
    ensures short { array_vec_len text.new ≤ array_vec_len text.old + 70 }
{
    match slip {
        Slip::Low(time) => push_times(text, b"clock low for ", time, b", not 30 to 50"),
        Slip::High(time) => push_times(text, b"clock high for ", time, b", not 30 to 50"),
        Slip::Settled(time) => push_times(
            text,
            b"data changed ",
            time,
            b" before the fall, not 5 or more",
        ),
        Slip::Held(time) => push_times(text, b"hold of ", time, b", not 60 or more"),
    }
}

/// The line of a time outside its limits, at a pulse that falls at this time.
fn slip_line(fall: u64, slip: Slip) -> LineText
    ensures { result.items ≡ slip_line fall slip }
{
    let mut text = time_text(fall);
    push_slip(&mut text, slip);
    append(&mut text, b"\n");
    text
}

impl Timing {
    /// Nothing was said.
    pub(crate) fn new(alloc: Global) -> Timing
        ensures { result ≡ untimed }
    {
        Timing {
            watch: Watch::new(),
            count: 0,
            text: Vec::new(alloc),
        }
    }

    /// The lines so far.
    pub(crate) fn text(&self) -> &[u8]
        ensures { result.now ≡ self.now.text }
    {
        &self.text
    }

    /// How many times were outside their limits.
    pub(crate) fn count(&self) -> u64
        ensures { result ≡ self.now.count }
    {
        self.count
    }

    /// The periods of the clock.
    pub(crate) fn periods(&self) -> Periods
        ensures { result ≡ self.now.watch.periods }
    {
        self.watch.periods()
    }

    /// Says a time outside its limits, if there is one.
    fn say_if(&mut self, fall: u64, slip: Option<Slip>) -> Result<(), AllocError>
        ensures { OnOk result (self.new ≡ slipped fall slip self.old) }
    {
        if let Some(slip) = slip {
            add_one(&mut self.count);
            self.text.extend_from_slice(&slip_line(fall, slip))?;
        }
        Ok(())
    }

    /// Says those of a pulse.
    fn say_all(&mut self, fall: u64, slips: Slips) -> Result<(), AllocError>
        ensures { OnOk result (self.new ≡ slipped_all fall slips self.old) }
    {
        self.say_if(fall, slips.high)?;
        self.say_if(fall, slips.low)?;
        self.say_if(fall, slips.settled)?;
        Ok(())
    }

    /// Takes a sample.
    pub(crate) fn take(&mut self, sample: Sample) -> Result<(), AllocError>
        ensures { OnOk result (self.new ≡ timed sample self.old) }
    {
        let fall = self.watch.fall();
        let slips = self.watch.see(sample.time, sample.lines);
        self.say_all(fall, slips)
    }
}
