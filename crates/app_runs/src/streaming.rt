//! `run`: the log of the run of a layout under a key file, said line by line as it arises, without a list of events or of
//! lines.

ghost use Rattle.std.specs.Prelude.{◌≡◌, ◌≤◌, [], if◌then◌else◌, Err, length, map, OnErr, OnOk};
ghost use Rattle.io_edge.specs.Said.{IsBrokenOff, IsSaid};
ghost use Rattle.run_loop.specs.Gliding.{history_of};
ghost use Rattle.subsystem.specs.LayoutOutcomes.{IsOutcome, Outcome};
ghost use Rattle.key_file.specs.Accepted.{IsAccepted};
ghost use Rattle.app_words.specs.declared.kind.Kind.{Kind};
ghost use Rattle.app_words.specs.Kinds.{limit_of};
ghost use Rattle.app_words.specs.declared.words.RunCommand.{RunCommand};
ghost use Rattle.app_answers.specs.Leaving.{HaveLookedAtAll};
ghost use Rattle.app_runs.specs.RunTexts.{HaveLookedToCut, run_text, start_line, start_lines};
ghost use Rattle.app_answers.specs.Spoken.{IsSpoken};
ghost use Rattle.app_runs.specs.RunOfText.{MaySayOfText};

use app_answers::{Spoken, events_in, put_end};
use app_words::Refusal;
use arrayvec::ArrayVec;
use hex_text::{append, begun};
use io_edge::{Sink, SinkFault, say};
use key_file::Feed;
use layout_reader::Layout;
use run_probes::Probe;
use std::alloc::Global;
use subsystem::{Engine, runs_are_expected};

/// The line of a tick start: its number, counted from 0, and its stamp, in cycles.
fn start_line(number: usize, stamp: u64) -> ArrayVec<u8, 64>
    ensures { result.items ≡ start_line number stamp }
{
    let mut line = begun(b"start ");
    append(&mut line, itoa::Buffer::new().format(number).as_bytes());
    append(&mut line, b" ");
    append(&mut line, itoa::Buffer::new().format(stamp).as_bytes());
    append(&mut line, b"\n");
    line
}

/// Puts a line a tick start.
fn put_starts<K: Sink>(out: &mut K, starts: &[u64]) -> Result<(), SinkFault>
    ensures said { OnOk result (IsSaid (K.shown out.old) (K.shown out.new) (start_lines 0 starts.now)) }
    ensures broken { OnErr result (IsBrokenOff (K.shown out.old) (K.shown out.new) (start_lines 0 starts.now)) }
{
    for number in 0..starts.len() {
        say(out, &start_line(number, starts[number]))?;
    }
    Ok(())
}

/// Puts a run's tick starts, if they are wanted.
fn put_ticks<K: Sink>(out: &mut K, starts: &[u64], wanted: bool) -> Result<(), SinkFault>
    ensures said { OnOk result (IsSaid (K.shown out.old) (K.shown out.new)
        (if wanted then start_lines 0 starts.now else [])) }
    ensures broken { OnErr result (IsBrokenOff (K.shown out.old) (K.shown out.new)
        (if wanted then start_lines 0 starts.now else [])) }
{
    if !wanted {
        return Ok(());
    }
    put_starts(out, starts)
}

/// Makes a run and puts its log as it arises, then its tick starts if they are wanted, and then the state at its end
/// if that is. It takes no memory.
fn put_run<F: Feed, K: Sink>(
    engine: Engine<F>,
    ticks: bool,
    steps: bool,
    out: &mut K,
    probes: &mut Vec<Box<dyn Probe>>,
) -> Result<(), SinkFault>
    requires accepted { IsAccepted (history_of engine) }
    ensures said { OnOk result ((run : Outcome) × IsOutcome engine run
        × IsSaid (K.shown out.old) (K.shown out.new) (run_text ticks steps run)
        × HaveLookedAtAll engine run.steps (map (λ b. watch b) probes.old.items) (map (λ b. watch b) probes.new.items)) }
    ensures broken { let first = K.shown out.old in
        let last = K.shown out.new in
        OnErr result ((run : Outcome) × IsOutcome engine run × IsBrokenOff first last (run_text ticks steps run)
        × HaveLookedToCut ticks steps engine run first last (map (λ b. watch b) probes.old.items)
        (map (λ b. watch b) probes.new.items)) }
{
    let ended = engine.run_to(out, probes)?;
    put_ticks(out, ended.starts(), ticks)?;
    put_end(out, ended.end(), ended.steps(), ended.cycles(), steps)
}

/// `run`, of a layout and the text of a key file. The text is judged, and then each line is put as it arises in the run.
/// Memory is lacking only before anything is put.
pub fn stream<K: Sink>(
    alloc: Global,
    layout: &Layout,
    text: &[u8],
    ticks: bool,
    steps: bool,
    out: &mut K,
    probes: &mut Vec<Box<dyn Probe>>,
) -> Result<Spoken, Refusal>
    requires within { length text.now ≤ limit_of Kind.Keys }
    ensures says { let before = map (λ b. watch b) probes.old.items in
        let after = map (λ b. watch b) probes.new.items in
        IsSpoken (λ answer taking log. MaySayOfText (RunCommand.Log ticks steps) layout.now text.now answer before
        (record { probes = after; taking = taking; log = log }))
        result (K.shown out.old) (K.shown out.new) }
    ensures unread { result ≡ Err Refusal.Read → ⊥ }
{
    runs_are_expected();
    let feed = events_in(text, layout)?;
    match Engine::new(alloc, layout, feed) {
        Err(_) => Err(Refusal::Memory),
        Ok(engine) => Ok(Spoken::Said(put_run(engine, ticks, steps, out, probes))),
    }
}
