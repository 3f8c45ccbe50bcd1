//! What is reported of a run: its tick starts, and each item of its log with its tick.

ghost use Rattle.std.specs.Prelude.{◌≡◌, ◌++◌, false};
ghost use Rattle.io_edge.specs.Said.{IsSaid};
ghost use Rattle.subsystem.specs.Progress.{lines_so_far};
ghost use Rattle.subsystem.specs.Putting.{IsLogBrokenAt};
ghost use Rattle.subsystem.specs.LogReports.{HasNoted, HasPut};
ghost use Rattle.subsystem.specs.Texts.{log_text};

use crate::account::push_lines;
use crate::counts::Counts;
use crate::putting::InTick;
use crate::starts::Starts;
use io_edge::{Sink, SinkFault};
use joint_feed::Course;
use model_link::LogLine;
use run_loop::{Reporter, put_items};
use std::alloc::AllocError;

/// Keeps the lines in a list.
#[derive(Drop)]
pub struct Keeping {
    pub starts: Starts,
}

impl Reporter<Vec<LogLine>, AllocError> for Keeping {
    ghost WIRES = { false };

    ghost has_reported = { λ e s first k it out. HasNoted e s k it.starts × (out.items ≡ first.items ++ lines_so_far s k) };

    ghost is_broken = { λ e s first k out. Unit {0} };

    const WIRES: bool = false;

    fn report(&mut self, out: &mut Vec<LogLine>, course: &Course) -> Result<(), AllocError> {
        push_lines(out, self.starts.tick(), course.seen.items.as_slice())?;
        self.starts.note(&course.joint)
    }
}

/// Puts the lines into a sink, and counts them.
#[derive(Drop)]
pub struct Putting {
    pub starts: Starts,
    pub counts: Counts,
}

impl<K: Sink> Reporter<K, SinkFault> for Putting {
    ghost WIRES = { false };

    ghost has_reported = { λ e s first k it out. HasPut e s k it × IsSaid (K.shown first)
        (K.shown out) (log_text (lines_so_far s k)) };

    ghost is_broken = { λ e s first k out. IsLogBrokenAt s (K.shown first)
        (K.shown out) k };

    const WIRES: bool = false;

    fn report(&mut self, out: &mut K, course: &Course) -> Result<(), SinkFault> {
        let tick = self.starts.tick();
        let items = course.seen.items.as_slice();
        put_items(out, &InTick { tick }, items)?;
        self.counts = self.counts.with_items(tick, items);
        self.starts.note_within(&course.joint);
        Ok(())
    }
}
