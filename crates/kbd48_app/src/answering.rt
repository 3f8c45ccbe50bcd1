//! From the words and the files to the answer: a text, or the refusal that is said in its place.

ghost use Rattle.std.specs.Prelude.{◌≡◌, ◌⊎◌, ◌≤◌, [], List, map, string_bytes, length, true, Err, Some};
ghost use Rattle.io_edge.specs.Faults.{Rose};
ghost use Rattle.app_answers.specs.Answers.{answer_of};
ghost use Rattle.app_answers.specs.FileAnswers.{file_said};
ghost use Rattle.app_answers.specs.Spoken.{IsSpoken};
ghost use Rattle.app_answers.specs.Taking.{Taking};
ghost use Rattle.app_runs.specs.RunOfText.{MaySayOfText};
ghost use Rattle.app_words.specs.Kinds.{limit_of, kind_of};
ghost use Rattle.app_words.specs.Words.{command_of, leaves_probes};
ghost use Rattle.run_probes.specs.Probes.{Watch};
ghost use Rattle.kbd48_app.specs.Answers.{MayAnswer, MayEnd};
ghost use Rattle.kbd48_app.specs.Plans.{Gives, Fetches, pair_plan};

use crate::boarding::over_board;
use crate::capturing::{over_capture, over_typed};
use crate::debugging::{over_debug, over_probe};
use app_answers::{
    Spoken, carry_out, certify, feed, fetch_file, image_in, layout_in, spell, to_say,
};
use app_runs::{sample, say_run};
use app_words::{
    Command, FileCommand, Kind, PairCommand, Refusal, RunCommand, clock_in, data_in, read_command,
    typed_clock_in, typed_data_in,
};
use io_edge::{Shelf, Sink};
use layout_reader::Layout;
use run_probes::Probe;
use std::alloc::Global;

/// Fetches the file of a command, and carries the command out.
fn over_file<F: Shelf>(
    alloc: Global,
    command: FileCommand,
    name: &str,
    shelf: &mut F,
) -> Result<Vec<u8>, Refusal>
    ensures ends { (probes : List Watch) (taking : Taking) →
        MayEnd (Fetches (kind_of command) name.now (λ bytes. Gives (file_said command bytes)))
        (F.in_memory shelf.old) (answer_of result) (F.in_memory shelf.new) probes (record { probes = probes; taking = taking; log = [] }) }
    ensures read { result ≡ Err Refusal.Read → Rose (F.faults shelf.old) (F.faults shelf.new) }
    ensures steady { (result ≡ Err Refusal.Read) ⊎ (F.faults shelf.new ≡ F.faults shelf.old) }
{
    let file = fetch_file(alloc, shelf, name, command.kind())?;
    carry_out(alloc, command, &file)
}

/// `cert`: fetches the image and judges it, and then fetches the certificate and judges it for the image.
fn over_cert<F: Shelf>(
    alloc: Global,
    image: &str,
    certificate: &str,
    shelf: &mut F,
) -> Result<Vec<u8>, Refusal>
    ensures ends { (probes : List Watch) (taking : Taking) → MayEnd (pair_plan PairCommand.Certify image.now certificate.now)
        (F.in_memory shelf.old) (answer_of result) (F.in_memory shelf.new) probes (record { probes = probes; taking = taking; log = [] }) }
    ensures read { result ≡ Err Refusal.Read → Rose (F.faults shelf.old) (F.faults shelf.new) }
    ensures steady { (result ≡ Err Refusal.Read) ⊎ (F.faults shelf.new ≡ F.faults shelf.old) }
{
    let file = fetch_file(alloc, shelf, image, Kind::Hex)?;
    let image = image_in(&file)?;
    let text = fetch_file(alloc, shelf, certificate, Kind::Cert)?;
    certify(alloc, &image, &text)
}

/// `type`: fetches the layout and judges it, and then fetches the text and plans how it is typed on the layout.
fn over_text<F: Shelf>(
    alloc: Global,
    layout: &str,
    text: &str,
    shelf: &mut F,
) -> Result<Vec<u8>, Refusal>
    ensures ends { (probes : List Watch) (taking : Taking) → MayEnd (pair_plan PairCommand.Spell layout.now text.now)
        (F.in_memory shelf.old) (answer_of result) (F.in_memory shelf.new) probes (record { probes = probes; taking = taking; log = [] }) }
    ensures read { result ≡ Err Refusal.Read → Rose (F.faults shelf.old) (F.faults shelf.new) }
    ensures steady { (result ≡ Err Refusal.Read) ⊎ (F.faults shelf.new ≡ F.faults shelf.old) }
{
    let document = fetch_file(alloc, shelf, layout, Kind::Layout)?;
    let layout = layout_in(alloc, &document)?;
    let text = fetch_file(alloc, shelf, text, Kind::Text)?;
    spell(alloc, &layout, &text)
}

/// `run`, `expect` and `trace`: fetches the layout and judges it, then fetches the key file, and then judges it for the
/// layout and makes the run.
fn over_run<F: Shelf, K: Sink>(
    alloc: Global,
    command: RunCommand,
    layout: &str,
    keys: &str,
    shelf: &mut F,
    out: &mut K,
    probes: &mut Vec<Box<dyn Probe>>,
) -> Result<Spoken, Refusal>
    ensures ends { let before = map (λ b. watch b) probes.old.items in
        let after = map (λ b. watch b) probes.new.items in
        IsSpoken (λ answer taking log. MayEnd (pair_plan (PairCommand.OverRun command) layout.now keys.now) (F.in_memory shelf.old)
        answer (F.in_memory shelf.new) before (record { probes = after; taking = taking; log = log }))
        result (K.shown out.old) (K.shown out.new) }
    ensures untouched { leaves_probes (Some (Command.OverPair (PairCommand.OverRun command))) ≡ true
        → map (λ b. watch b) probes.new.items ≡ map (λ b. watch b) probes.old.items }
    ensures read { result ≡ Err Refusal.Read → Rose (F.faults shelf.old) (F.faults shelf.new) }
    ensures steady { (result ≡ Err Refusal.Read) ⊎ (F.faults shelf.new ≡ F.faults shelf.old) }
{
    let document = fetch_file(alloc, shelf, layout, Kind::Layout)?;
    let layout = layout_in(alloc, &document)?;
    let text = fetch_file(alloc, shelf, keys, Kind::Keys)?;
    say_run(alloc, command, &layout, &text, out, probes)
}

/// A command over two files.
fn over_pair<F: Shelf, K: Sink>(
    alloc: Global,
    command: PairCommand,
    first: &str,
    second: &str,
    shelf: &mut F,
    out: &mut K,
    probes: &mut Vec<Box<dyn Probe>>,
) -> Result<Spoken, Refusal>
    ensures ends { let before = map (λ b. watch b) probes.old.items in
        let after = map (λ b. watch b) probes.new.items in
        IsSpoken (λ answer taking log. MayEnd (pair_plan command first.now second.now) (F.in_memory shelf.old)
        answer (F.in_memory shelf.new) before (record { probes = after; taking = taking; log = log }))
        result (K.shown out.old) (K.shown out.new) }
    ensures untouched { leaves_probes (Some (Command.OverPair command)) ≡ true
        → map (λ b. watch b) probes.new.items ≡ map (λ b. watch b) probes.old.items }
    ensures read { result ≡ Err Refusal.Read → Rose (F.faults shelf.old) (F.faults shelf.new) }
    ensures steady { (result ≡ Err Refusal.Read) ⊎ (F.faults shelf.new ≡ F.faults shelf.old) }
{
    match command {
        PairCommand::Certify => to_say(over_cert(alloc, first, second, shelf)),
        PairCommand::Spell => to_say(over_text(alloc, first, second, shelf)),
        PairCommand::OverRun(command) => over_run(
            alloc, command, first, second, shelf, out, probes,
        ),
    }
}

/// The answer to the words. A run's text is said as it arises; of any other answer nothing is said yet.
pub fn answer<F: Shelf, K: Sink>(
    alloc: Global,
    words: &[String],
    shelf: &mut F,
    out: &mut K,
    probes: &mut Vec<Box<dyn Probe>>,
) -> Result<Spoken, Refusal>
    ensures ends { let before = map (λ b. watch b) probes.old.items in
        let after = map (λ b. watch b) probes.new.items in
        IsSpoken (λ answer taking log. MayAnswer (map string_bytes words.now) (F.in_memory shelf.old)
        answer (F.in_memory shelf.new) before (record { probes = after; taking = taking; log = log }))
        result (K.shown out.old) (K.shown out.new) }
    ensures untouched { leaves_probes (command_of (map string_bytes words.now)) ≡ true
        → map (λ b. watch b) probes.new.items ≡ map (λ b. watch b) probes.old.items }
    ensures read { result ≡ Err Refusal.Read → Rose (F.faults shelf.old) (F.faults shelf.new) }
    ensures steady { (result ≡ Err Refusal.Read) ⊎ (F.faults shelf.new ≡ F.faults shelf.old) }
{
    match read_command(words) {
        None => Err(Refusal::Words),
        Some(Command::Feed(bytes)) => to_say(feed(alloc, bytes.as_slice())),
        Some(Command::OverFile(command)) => to_say(over_file(alloc, command, &words[1], shelf)),
        Some(Command::OverPair(command)) => over_pair(
            alloc, command, &words[1], &words[2], shelf, out, probes,
        ),
        Some(Command::Debug) => {
            to_say(over_debug(alloc, &words[1], &words[2], &words[3], shelf, probes))
        }
        Some(Command::Probe { fill }) => to_say(over_probe(
            alloc, fill, &words[1], &words[2], &words[3], &words[4], shelf, probes,
        )),
        Some(Command::Board(wanted)) => over_board(
            alloc, wanted, &words[1], &words[2], &words[3], shelf, out, probes,
        ),
        Some(Command::Sample { strokes, debounced }) => {
            sample(alloc, strokes.count(), debounced, out, probes)
        }
        Some(Command::Capture) => over_capture(
            alloc,
            &words[1],
            clock_in(words),
            data_in(words),
            shelf,
            out,
        ),
        Some(Command::Typed) => to_say(over_typed(
            alloc,
            &words[2],
            &words[3],
            typed_clock_in(words),
            typed_data_in(words),
            shelf,
        )),
    }
}
