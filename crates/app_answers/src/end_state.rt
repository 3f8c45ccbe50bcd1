//! The state at a run's end, said if it is wanted.

ghost use Rattle.std.specs.Prelude.{◌≡◌, [], if◌then◌else◌, OnErr, OnOk};
ghost use Rattle.io_edge.specs.Said.{IsBrokenOff, IsSaid};
ghost use Rattle.mcs48_core.specs.StateText.{state_text_of};

use arrayvec::ArrayVec;
use hex_text::append;
use io_edge::{Sink, SinkFault, say};
use mcs48_core::{Mcu, state_line};

/// The five lines of the state at a run's end.
fn end_lines(end: &Mcu, steps: u64, cycles: u64) -> ArrayVec<u8, 320>
    ensures { result.items ≡ state_text_of end.now steps cycles }
{
    let mut text = ArrayVec::new();
    append(&mut text, &state_line(end, steps, cycles, 0));
    append(&mut text, &state_line(end, steps, cycles, 1));
    append(&mut text, &state_line(end, steps, cycles, 2));
    append(&mut text, &state_line(end, steps, cycles, 3));
    append(&mut text, &state_line(end, steps, cycles, 4));
    text
}

/// Puts the state at a run's end, after so many steps and cycles, if it is wanted.
pub fn put_end<K: Sink>(
    out: &mut K,
    end: &Mcu,
    steps: u64,
    cycles: u64,
    wanted: bool,
) -> Result<(), SinkFault>
    ensures said { OnOk result (IsSaid (K.shown out.old) (K.shown out.new)
        (if wanted then state_text_of end.now steps cycles else [])) }
    ensures broken { OnErr result (IsBrokenOff (K.shown out.old) (K.shown out.new)
        (if wanted then state_text_of end.now steps cycles else [])) }
{
    if !wanted {
        return Ok(());
    }
    say(out, &end_lines(end, steps, cycles))
}
