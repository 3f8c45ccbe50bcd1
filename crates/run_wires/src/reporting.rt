//! What is reported of the two wires of a run: each change.

ghost use Rattle.std.specs.Prelude.{◌≡◌, true};
ghost use Rattle.run_probes.specs.Transfers.{silence};
ghost use Rattle.io_edge.specs.Said.{IsSaid};
ghost use Rattle.run_wires.specs.Ending.{AreChangesBrokenAt};
ghost use Rattle.run_wires.specs.HeardSoFar.{HasHeard};
ghost use Rattle.run_wires.specs.Trace.{changes_to};

use crate::sampling::put_sample;
use crate::seen::level_if;
use io_edge::{Sink, SinkFault};
use joint_feed::Course;
use run_loop::Reporter;
use run_probes::LineDecoder;

/// Samples the wires, and puts what a sample adds. A sample of wires that are as they were adds nothing. `SEEN` says whether
/// data is put as the controller sees it, too.
#[derive(Drop)]
pub(crate) struct Changes<const SEEN: bool> {
    pub decoder: LineDecoder,
}

impl<const SEEN: bool> Changes<SEEN> {
    /// No sample was heard.
    pub fn new() -> Changes<SEEN>
        ensures silent { result.decoder ≡ silence }
    {
        Changes {
            decoder: LineDecoder::new(),
        }
    }
}

impl<K: Sink, const SEEN: bool> Reporter<K, SinkFault> for Changes<SEEN> {
    ghost WIRES = { true };

    ghost has_reported = { λ e s first k it out. HasHeard s k it.decoder × IsSaid (K.shown first)
        (K.shown out) (changes_to SEEN s k) };

    ghost is_broken = { λ e s first k out. AreChangesBrokenAt SEEN s (K.shown first)
        (K.shown out) k };

    const WIRES: bool = true;

    fn report(&mut self, out: &mut K, course: &Course) -> Result<(), SinkFault> {
        let cycle = course.joint.cycle();
        let lines = course.joint.lines();
        let seen = level_if(SEEN, course, lines);
        put_sample(out, &mut self.decoder, cycle, lines, seen)
    }
}
