//! What is reported of a run on the board: each item of its log with its stamp.

ghost use Rattle.std.specs.Prelude.{◌≡◌, false};
ghost use Rattle.run_program.specs.Putting.{IsLogBrokenAt};
ghost use Rattle.run_program.specs.Texts.{log_text};
ghost use Rattle.io_edge.specs.Said.{IsSaid};
ghost use Rattle.run_loop.specs.Running.{log_at};

use io_edge::{Sink, SinkFault};
use joint_feed::Course;
use run_loop::{Reporter, put_items};

/// Puts the line of each item as it arises.
#[derive(Drop)]
pub(crate) struct ByStamp;

impl<K: Sink> Reporter<K, SinkFault> for ByStamp {
    ghost WIRES = { false };

    ghost has_reported = { λ e s first k it out. IsSaid (K.shown first)
        (K.shown out) (log_text (log_at s k)) };

    ghost is_broken = { λ e s first k out. IsLogBrokenAt s (K.shown first)
        (K.shown out) k };

    const WIRES: bool = false;

    fn report(&mut self, out: &mut K, course: &Course) -> Result<(), SinkFault> {
        put_items(out, self, course.seen.items.as_slice())
    }
}
