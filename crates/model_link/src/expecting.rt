//! The expected log.

ghost use Rattle.std.specs.Prelude.{◌≡◌, ◌<◌, ◌-◌, ◌^◌, length, All, IfOk};
ghost use Rattle.board_terms.specs.Cadence.{IsLast, KeepsCadenceTo, listed};
ghost use Rattle.board_terms.specs.Edges.{AreInOrder};
ghost use Rattle.key_file.specs.Accepted.{IsAcceptedFor};
ghost use Rattle.layout_reader.specs.Layouts.{HasEntry};
ghost use Rattle.model_link.specs.Expected.{expected, expected_log};
ghost use Rattle.model_link.specs.Machine.{keyboard};

use crate::line::LogLine;
use crate::lines::log_lines;
use crate::whole::Together;
use board_terms::{Edge, HostEvent, STAMP_0};
use key_file::History;
use layout_reader::Layout;
use std::alloc::{AllocError, Global};

/// The log that a layout and a history give, if the ticks have these starts: what the port, INT 09h, the lights
/// and the controller's outputs say, each with its tick. The starts are stamps in cycles. They keep the cadence, and
/// the last of them is the first at or after the history's end; items before it are in the log. Only memory may be
/// lacking.
pub fn expect(
    alloc: Global,
    layout: &Layout,
    history: &History,
    starts: &[u64],
) -> Result<Vec<LogLine>, AllocError>
    requires accepted { IsAcceptedFor layout.now history.now }
    requires some { 0 < length starts.now }
    requires cadence { KeepsCadenceTo (listed starts.now) (length starts.now - 1) }
    requires last { IsLast (listed starts.now) history.now.end (length starts.now - 1) }
    ensures log { IfOk result (λ lines. lines.items ≡ expected_log layout.now history.now starts.now) }
{
    expect_events(alloc, layout, history.edges(), history.host(), starts)
}

/// The same, of the edges and the host's events.
#[tactic(auto, using(crate::proofs::Taken::open_known))]
fn expect_events(
    alloc: Global,
    layout: &Layout,
    edges: &[Edge],
    host: &[HostEvent],
    starts: &[u64],
) -> Result<Vec<LogLine>, AllocError>
    requires order { AreInOrder edges.now }
    requires keys { All (λ e. HasEntry layout.now e.place) edges.now }
    requires some { 0 < length starts.now }
    requires near { length starts.now < 2 ^ 32 }
    requires cadence { KeepsCadenceTo (listed starts.now) (length starts.now - 1) }
    ensures { IfOk result (λ lines. lines.items ≡ expected (keyboard layout.now) edges.now host.now (listed starts.now) (length starts.now - 1)) }
{
    let mut together = Together::new(alloc, layout.rate())?;
    together.wait(host, STAMP_0 + starts[0])?;
    for n in 0..starts.len() - 1 {
        together.next(alloc, layout, edges, host, starts, n)?;
    }
    log_lines(alloc, together.log(), starts)
}
