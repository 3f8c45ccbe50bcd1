//! `run`, `expect` and `trace`: what a command says of a layout and the text of a key file.

ghost use Rattle.std.specs.Prelude.{◌≡◌, ◌≤◌, length, map, true, Err, Some};
ghost use Rattle.app_answers.specs.Spoken.{IsSpoken};
ghost use Rattle.app_runs.specs.RunOfText.{MaySayOfText};
ghost use Rattle.app_words.specs.declared.kind.Kind.{Kind};
ghost use Rattle.app_words.specs.declared.words.Command.{Command};
ghost use Rattle.app_words.specs.declared.words.PairCommand.{PairCommand};
ghost use Rattle.app_words.specs.Kinds.{limit_of};
ghost use Rattle.app_words.specs.Words.{leaves_probes};

use crate::reporting::expected;
use crate::streaming::stream;
use crate::tracing::trace_wires;
use app_answers::{Spoken, to_say};
use app_words::{Refusal, RunCommand};
use io_edge::Sink;
use layout_reader::Layout;
use run_probes::Probe;
use std::alloc::Global;

/// What a command says of a layout and the text of a key file.
pub fn say_run<K: Sink>(
    alloc: Global,
    command: RunCommand,
    layout: &Layout,
    text: &[u8],
    out: &mut K,
    probes: &mut Vec<Box<dyn Probe>>,
) -> Result<Spoken, Refusal>
    requires within { length text.now ≤ limit_of Kind.Keys }
    ensures says { let before = map (λ b. watch b) probes.old.items in
        let after = map (λ b. watch b) probes.new.items in
        IsSpoken (λ answer taking log. MaySayOfText command layout.now text.now answer before
        (record { probes = after; taking = taking; log = log }))
        result (K.shown out.old) (K.shown out.new) }
    ensures untouched { leaves_probes (Some (Command.OverPair (PairCommand.OverRun command))) ≡ true
        → map (λ b. watch b) probes.new.items ≡ map (λ b. watch b) probes.old.items }
    ensures unread { result ≡ Err Refusal.Read → ⊥ }
{
    match command {
        RunCommand::Log { ticks, steps } => stream(alloc, layout, text, ticks, steps, out, probes),
        RunCommand::Expect => to_say(expected(alloc, layout, text, probes)),
        RunCommand::Trace { seen } => trace_wires(alloc, layout, text, seen, out),
    }
}
