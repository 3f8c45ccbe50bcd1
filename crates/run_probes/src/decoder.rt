//! What listens to the two wires.

ghost use Rattle.std.specs.Prelude.{◌≡◌, true, false};
ghost use Rattle.run_probes.specs.Kept.{both_high};
ghost use Rattle.run_probes.specs.Transfers.{completed, heard, is_later_than, sample, silence, wires_at};

use crate::heard::{Fall, Kept, push_fall, transfer_by};
use arrayvec::ArrayVec;
use board_terms::{HIGH, Lines, Transfer};
use std::marker::Model;

/// Reads the bytes that pass from samples of the two wires. It keeps the last sample and the last eleven falls of the
/// clock, which is what a clause sees.
///
/// A fall is a sample with a low clock whose predecessor had a high one; before the first sample both wires are high. A
/// byte passes with eleven falls, each 32 cycles after the one before it. Let f0 to f10 be the data wire at them: if f0
/// is low, f10 high, and f1 to f9 have an odd number of ones, the keyboard sent f1 to f8, the low bit first; if f10 is
/// low, f9 high, and f0 to f8 have an odd number of ones, the host sent f0 to f7. Nothing else is a transfer.
#[derive(Drop)]
pub struct LineDecoder {
    last: Kept,
    falls: ArrayVec<Fall, 11>,
}

impl Model for LineDecoder {
    ghost use Rattle.run_probes.specs.Kept.{sample_kept};
    ghost use Rattle.run_probes.specs.Transfers.{Ear};

    ghost Value = { Ear };

    ghost view = { λ d. record { last = sample_kept d.last; falls = d.falls.items } };
}

impl LineDecoder {
    /// No sample was heard yet.
    pub fn new() -> LineDecoder
        ensures silence { result ≡ silence }
    {
        LineDecoder {
            last: Kept::Silence,
            falls: ArrayVec::new(),
        }
    }

    /// The wires at the last sample; both are high if there was none.
    pub fn lines(&self) -> Lines
        ensures lines { result ≡ wires_at self.now.last }
    {
        match self.last {
            Kept::Whole(sample) => sample.lines,
            Kept::Silence => HIGH,
            Kept::High(_cycle) => HIGH,
        }
    }

    /// Whether a sample at this cycle is after the last one.
    pub fn is_later_than(&self, cycle: u64) -> bool
        ensures afterwards { result ≡ is_later_than cycle self.now.last }
    {
        match self.last {
            Kept::Silence => true,
            Kept::High(last) => last < cycle,
            Kept::Whole(sample) => sample.cycle < cycle,
        }
    }

    /// Hears that both wires are high after so many cycles, where they were high at the last sample, and this one is after
    /// it. Answers whether that was so; else nothing was heard. It is in line, since most samples are such.
    #[inline(always)]
    pub(crate) fn hear_high(&mut self, cycle: u64) -> bool
        ensures rises { result ≡ true → is_later_than cycle self.old.last ≡ true }
        ensures heard { result ≡ true → self.new ≡ heard (sample cycle both_high) self.old }
        ensures nothing { result ≡ false → self.new ≡ self.old }
    {
        match &mut self.last {
            Kept::High(last) => {
                if *last >= cycle {
                    return false;
                }
                *last = cycle;
                true
            }
            _ => false,
        }
    }

    /// Hears the wires as they are after so many cycles, more than at the last sample. Answers the transfer that this
    /// sample completes; None exactly if it completes none.
    pub fn sample(&mut self, cycle: u64, line: Lines) -> Option<Transfer>
        requires rises { is_later_than cycle self.old.last ≡ true }
        ensures transfer { result ≡ completed (sample cycle line) self.old }
        ensures heard { self.new ≡ heard (sample cycle line) self.old }
    {
        let before = self.lines();
        self.last = Kept::of(cycle, line);
        if line.clk || !before.clk {
            return None;
        }
        let dat = line.dat;
        push_fall(&mut self.falls, Fall { cycle, dat });
        transfer_by(self.falls.as_slice())
    }
}
