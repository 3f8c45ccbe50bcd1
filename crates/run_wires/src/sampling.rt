//! A sample of the wires, put into a sink.

ghost use Rattle.std.specs.Prelude.{◌≡◌, true, OnErr, OnOk};
ghost use Rattle.run_probes.specs.Transfers.{heard, is_later_than, sample};
ghost use Rattle.io_edge.specs.Said.{IsBrokenOff, IsSaid};
ghost use Rattle.run_wires.specs.Text.{sample_text};

use crate::change::{change, differ};
use board_terms::Lines;
use io_edge::{Sink, SinkFault, say};
use run_probes::LineDecoder;

/// The decoder hears the wires as they are after so many cycles, which are more than at its last sample; and if they
/// differ from those of that sample, the lines of the change are put, each whole: the time, in units of 100 ns, of which
/// a cycle has 25, the wires that turned, the level of data that the controller sees if it is given, and the transfer that it
/// completes, as a comment.
pub fn put_sample<K: Sink>(
    out: &mut K,
    decoder: &mut LineDecoder,
    cycle: u64,
    lines: Lines,
    seen: Option<bool>,
) -> Result<(), SinkFault>
    requires rises { is_later_than cycle decoder.old.last ≡ true }
    ensures heard { decoder.new ≡ heard (sample cycle lines) decoder.old }
    ensures said { OnOk result (IsSaid (K.shown out.old)
        (K.shown out.new) (sample_text (sample cycle lines) seen decoder.old)) }
    ensures broken { OnErr result (IsBrokenOff (K.shown out.old)
        (K.shown out.new) (sample_text (sample cycle lines) seen decoder.old)) }
{
    let before = decoder.lines();
    let transfer = decoder.sample(cycle, lines);
    if differ(before, lines) {
        say(out, change(cycle, before, lines, seen, transfer).as_slice())?;
    }
    Ok(())
}
