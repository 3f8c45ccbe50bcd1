//! `trace`: the two wires in the run of a layout under a key file, and with `--seen` data as the controller sees it, said as
//! they change.

ghost use Rattle.std.specs.Prelude.{◌≡◌, ◌≤◌, List, Err, length};
ghost use Rattle.run_probes.specs.Probes.{Watch};
ghost use Rattle.app_words.specs.declared.kind.Kind.{Kind};
ghost use Rattle.app_words.specs.Kinds.{limit_of};
ghost use Rattle.app_words.specs.declared.words.RunCommand.{RunCommand};
ghost use Rattle.app_answers.specs.Spoken.{IsSpoken};
ghost use Rattle.app_runs.specs.RunOfText.{MaySayOfText};

use app_answers::{Spoken, events_in};
use app_words::Refusal;
use io_edge::{Sink, SinkFault};
use law_runs_agree::runs_come_to_outcomes;
use layout_reader::Layout;
use run_wires::{TraceFault, trace};
use std::alloc::Global;
use subsystem::runs_are_expected;

/// `trace`, of a layout and the text of a key file. The text is judged, and then each change of the wires is put as it
/// arises in the run. Memory is lacking only before anything is put.
pub fn trace_wires<K: Sink>(
    alloc: Global,
    layout: &Layout,
    text: &[u8],
    seen: bool,
    out: &mut K,
) -> Result<Spoken, Refusal>
    requires within { length text.now ≤ limit_of Kind.Keys }
    ensures says { (probes : List Watch) →
        IsSpoken (λ answer taking log. MaySayOfText (RunCommand.Trace seen) layout.now text.now answer probes
        (record { probes = probes; taking = taking; log = log }))
        result (K.shown out.old) (K.shown out.new) }
    ensures unread { result ≡ Err Refusal.Read → ⊥ }
{
    runs_are_expected();
    runs_come_to_outcomes();
    let feed = events_in(text, layout)?;
    match trace(alloc, layout, feed, seen, out) {
        Err(TraceFault::Memory) => Err(Refusal::Memory),
        Err(TraceFault::Write) => Ok(Spoken::Said(Err(SinkFault::Failed))),
        Ok(()) => Ok(Spoken::Said(Ok(()))),
    }
}
