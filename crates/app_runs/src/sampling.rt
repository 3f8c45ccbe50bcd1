//! `sample`: a run of the sample layout under so many strokes of keys, and what it counts.

ghost use Rattle.std.specs.Prelude.{◌≡◌, ◌≤◌, Bool, [], map, Err, IfOk, MatchResult, Ok};
ghost use Rattle.subsystem.specs.Counts.{none_counted, with_lines};
ghost use Rattle.key_file.specs.Accepted.{IsAccepted, IsAcceptedFor};
ghost use Rattle.subsystem.specs.Ending.{ending};
ghost use Rattle.run_loop.specs.Gliding.{history_of};
ghost use Rattle.subsystem.specs.LayoutOutcomes.{IsOutcome, Outcome};
ghost use Rattle.law_typed_log.specs.Typing.{stroke_start};
ghost use Rattle.app_runs.specs.RunAnswers.{MayAnswerSample};
ghost use Rattle.app_answers.specs.Leaving.{HaveLookedAtAll};
ghost use Rattle.app_runs.specs.Sampling.{counts_line, sample_history, sample_layout, sample_text, stroke_key};
ghost use Rattle.app_answers.specs.Spoken.{IsSpoken};

use app_answers::Spoken;
use app_words::Refusal;
use arrayvec::ArrayVec;
use board_terms::{Edge, HostAct, HostEvent, Place};
use hex_text::{append, begun};
use io_edge::{DropSink, Sink, say};
use key_file::{Feed, History, ListFeed};
use layout_reader::{Layout, us84_layout};
use run_probes::Probe;
use std::alloc::{AllocError, Global};
use subsystem::{Counts, Ended, Engine, runs_are_expected};

/// The stamp at which the first stroke begins, and the cycles from one stroke to the next.
const FIRST_STROKE: u64 = 162_816;

const STROKE: u64 = 20_480;

/// For how many cycles its key is down.
const HELD: u64 = 10_240;

/// After how many cycles from its beginning its word is taken.
const TAKEN: u64 = 14_336;

/// The sample layout, with a debounce or without.
fn sample_layout(alloc: Global, debounced: bool) -> Result<Layout, AllocError>
    ensures layout { IfOk result (λ layout. layout ≡ sample_layout debounced) }
{
    Ok(us84_layout(alloc)?.with_debounce(debounced))
}

/// The stamp at which a stroke begins, counted from 0, in cycles.
fn stroke_start(k: u32) -> u64
    ensures { result ≡ stroke_start k }
{
    FIRST_STROKE + STROKE * u64::from(k)
}

/// The place of its key.
fn stroke_place(k: u32) -> Place
    requires { k ≤ 10000 }
    ensures { result ≡ stroke_key k }
{
    let number = ((29 + 25 * k) % 84) as u8;
    Place::numbered(number).unwrap()
}

/// The history of so many strokes.
fn sample_history(alloc: Global, count: u32) -> Result<History, AllocError>
    requires few { count ≤ 10000 }
    ensures history { IfOk result (λ history. history ≡ sample_history count) }
    ensures accepted { (debounced : Bool) → IfOk result (IsAcceptedFor (sample_layout debounced)) }
{
    let mut edges = Vec::new(alloc);
    let mut host = Vec::new(alloc);
    for k in 0..count {
        let stamp = stroke_start(k);
        let place = stroke_place(k);
        edges.push(Edge {
            stamp,
            place,
            down: true,
        })?;
        edges.push(Edge {
            stamp: stamp + HELD,
            place,
            down: false,
        })?;
        host.push(HostEvent {
            stamp: stamp + TAKEN,
            act: HostAct::Take,
        })?;
    }
    Ok(History::new(edges, host, stroke_start(count)))
}

/// How many events the history of so many strokes has, how many bytes, words and beeps there were in its run, and the
/// number of the last tick start.
fn counts_line(count: u32, counts: Counts, tick: usize) -> ArrayVec<u8, 160>
    requires few { count ≤ 10000 }
    ensures { result.items ≡ counts_line count counts tick }
{
    let mut line = begun(b"events ");
    append(&mut line, itoa::Buffer::new().format(3 * count).as_bytes());
    append(&mut line, b" ports ");
    append(
        &mut line,
        itoa::Buffer::new().format(counts.ports).as_bytes(),
    );
    append(&mut line, b" words ");
    append(
        &mut line,
        itoa::Buffer::new().format(counts.words).as_bytes(),
    );
    append(&mut line, b" beeps ");
    append(
        &mut line,
        itoa::Buffer::new().format(counts.beeps).as_bytes(),
    );
    append(&mut line, b" ticks ");
    append(&mut line, itoa::Buffer::new().format(tick).as_bytes());
    append(&mut line, b"\n");
    line
}

/// Makes a run whose log nobody reads.
fn run_unheard<F: Feed>(engine: Engine<F>, probes: &mut Vec<Box<dyn Probe>>) -> Ended
    requires accepted { IsAccepted (history_of engine) }
    ensures run { IsOutcome engine (ending engine result) }
    ensures counts { result.counts ≡ with_lines none_counted (ending engine result).log }
    ensures looked { HaveLookedAtAll engine result.steps (map (λ b. watch b) probes.old.items)
        (map (λ b. watch b) probes.new.items) }
{
    match engine.run_to(&mut DropSink::new(), probes) {
        Ok(ended) => ended,
        // The sink never fails.
        Err(_) => unreachable!(),
    }
}

/// The line of a run of so many strokes. It takes no memory.
fn sample_line<F: Feed>(
    engine: Engine<F>,
    count: u32,
    probes: &mut Vec<Box<dyn Probe>>,
) -> ArrayVec<u8, 160>
    requires few { count ≤ 10000 }
    requires accepted { IsAccepted (history_of engine) }
    ensures line { (run : Outcome) × IsOutcome engine run × (result.items ≡ sample_text count run)
        × HaveLookedAtAll engine run.steps (map (λ b. watch b) probes.old.items) (map (λ b. watch b) probes.new.items) }
{
    let ended = run_unheard(engine, probes);
    counts_line(count, ended.counts, ended.starts().len().saturating_sub(1))
}

/// What was made, or the refusal if memory ran out for it.
fn made<T>(answer: Result<T, AllocError>) -> Result<T, Refusal>
    ensures { MatchResult result (λ value. answer ≡ Ok value) (λ refusal. refusal ≡ Refusal.Memory) }
{
    match answer {
        Ok(value) => Ok(value),
        Err(_) => Err(Refusal::Memory),
    }
}

/// `sample`, of 1 to 10,000 strokes, on the sample layout with a debounce or without. Memory is lacking only before a probe has looked and anything is put.
pub fn sample<K: Sink>(
    alloc: Global,
    count: u32,
    debounced: bool,
    out: &mut K,
    probes: &mut Vec<Box<dyn Probe>>,
) -> Result<Spoken, Refusal>
    requires few { count ≤ 10000 }
    ensures says { let before = map (λ b. watch b) probes.old.items in
        let after = map (λ b. watch b) probes.new.items in
        IsSpoken (λ answer taking log. MayAnswerSample count debounced answer before after × (log ≡ []))
        result (K.shown out.old) (K.shown out.new) }
    ensures unread { result ≡ Err Refusal.Read → ⊥ }
{
    runs_are_expected();
    let layout = made(sample_layout(alloc, debounced))?;
    let history = made(sample_history(alloc, count))?;
    let engine = made(Engine::new(alloc, &layout, ListFeed::new(&history)))?;
    let line = sample_line(engine, count, probes);
    Ok(Spoken::Said(say(out, &line)))
}
