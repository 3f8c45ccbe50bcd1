//! The tick starts of the run.

ghost use Rattle.std.specs.Prelude.{◌≡◌, ◌-◌, length, map, IfOk};
ghost use Rattle.board_terms.specs.Cadence.{KeepsCadenceTo, listed};
ghost use Rattle.fw_compile.specs.Image.{image_of};
ghost use Rattle.joint_feed.specs.Stories.{story};
ghost use Rattle.key_file.specs.Accepted.{IsAcceptedFor};
ghost use Rattle.layout_reader.specs.Layouts.{IsKeyLayout};
ghost use Rattle.subsystem.specs.Looking.{HaveLookedAtSome};
ghost use Rattle.subsystem.specs.Starts.{AreStartsOf};

use crate::engine::Engine;
use io_edge::DropSink;
use key_file::{History, ListFeed};
use layout_reader::Layout;
use run_probes::Probe;
use std::alloc::{AllocError, Global};

/// The stamps of the tick starts in the run that `run` makes, of which no log is kept. After each step each probe looks at
/// the state that it led to. Each start is at its multiple of 2,048 or at most five cycles past it. Only memory may run out:
/// then the probes have looked at the states of some first steps.
pub fn tick_starts(
    alloc: Global,
    layout: &Layout,
    history: &History,
    probes: &mut Vec<Box<dyn Probe>>,
) -> Result<Vec<u64>, AllocError>
    requires { IsAcceptedFor layout.now history.now }
    ensures layout { IsKeyLayout layout.now }
    ensures starts { let s = story (image_of layout.now) history.now in
        IfOk result (λ starts. AreStartsOf s starts.items (map (λ b. watch b) probes.old.items) (map (λ b. watch b) probes.new.items)) }
    ensures cadence { IfOk result (λ starts. KeepsCadenceTo (listed starts.items) (length starts.items - 1)) }
    ensures looked_so_far { let s = story (image_of layout.now) history.now in
        HaveLookedAtSome s (map (λ b. watch b) probes.old.items) (map (λ b. watch b) probes.new.items) }
{
    let feed = ListFeed::new(history);
    let engine = Engine::new(alloc, layout, feed)?;
    match engine.run_to(&mut DropSink::new(), probes) {
        Ok(ended) => Ok(ended.starts),
        // The sink never fails.
        Err(_) => unreachable!(),
    }
}
