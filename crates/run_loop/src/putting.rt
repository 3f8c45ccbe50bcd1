//! Items of a log, put as they arise.

ghost use Rattle.std.specs.Prelude.{◌≡◌, ◌<◌, ◌^◌, ◌∷◌, ◌++◌, [], ℕ, List, flat_map, OnErr, OnOk};
ghost use Rattle.host_turn.specs.declared.stamped.Stamped.{Stamped};
ghost use Rattle.io_edge.specs.Said.{IsBrokenOff, IsSaid};
ghost use Rattle.run_loop.specs.Running.{AreIn};

use arrayvec::ArrayVec;
use host_turn::Stamped;
use io_edge::{Sink, SinkFault, say};

/// How an item of a log is written: as a line.
pub trait ItemLine {
    /// The line of an item.
    ghost line_of: { Self → Stamped → List ℕ };

    /// The line of an item, which ends with LF.
    fn line(&self, stamped: Stamped) -> ArrayVec<u8, 40>
        requires near { stamped.cycle < 2 ^ 32 }
        ensures line { result.items ≡ line_of self.now stamped }
        ensures whole { (front : List ℕ) × (line_of self.now stamped ≡ front ++ 10 ∷ []) };
}

/// Puts the line of an item whole, and what wasn't taken of it again.
fn put_line<K: Sink, L: ItemLine>(out: &mut K, lines: &L, stamped: Stamped) -> Result<(), SinkFault>
    requires near { stamped.cycle < 2 ^ 32 }
    ensures said { OnOk result (IsSaid (K.shown out.old) (K.shown out.new) (L.line_of lines.now stamped)) }
    ensures broken { OnErr result (IsBrokenOff (K.shown out.old) (K.shown out.new) (L.line_of lines.now stamped)) }
    ensures whole { (front : List ℕ) × (L.line_of lines.now stamped ≡ front ++ 10 ∷ []) }
{
    let text = lines.line(stamped);
    say(out, text.as_slice())
}

/// Puts the lines of items, one after another.
pub fn put_items<K: Sink, L: ItemLine>(
    out: &mut K,
    lines: &L,
    items: &[Stamped],
) -> Result<(), SinkFault>
    requires near { AreIn 0 (2 ^ 32) items.now }
    ensures said { OnOk result (IsSaid (K.shown out.old) (K.shown out.new) (flat_map (L.line_of lines.now) items.now)) }
    ensures broken { OnErr result (IsBrokenOff (K.shown out.old) (K.shown out.new) (flat_map (L.line_of lines.now) items.now)) }
{
    for stamped in items {
        put_line(out, lines, *stamped)?;
    }
    Ok(())
}
