//! `board`: the log of the run of any program on the board under a key file, or its two wires and with `--seen` data as the
//! controller sees it, said line by line as it arises.

ghost use Rattle.std.specs.Prelude.{◌≡◌, ◌≤◌, Err, length, map, Ok};
ghost use Rattle.key_file.specs.Accepted.{IsAccepted};
ghost use Rattle.run_loop.specs.Gliding.{history_of};
ghost use Rattle.app_answers.specs.Spoken.{IsSpoken};
ghost use Rattle.app_boards.specs.BoardAnswers.{IsBoardSaid};
ghost use Rattle.app_boards.specs.BoardOfText.{MaySayOfBoard};
ghost use Rattle.app_words.specs.declared.kind.Kind.{Kind};
ghost use Rattle.app_words.specs.Kinds.{limit_of};

use app_answers::{Spoken, events_in, put_end};
use app_words::{BoardCommand, BoardRun, Refusal};
use io_edge::Sink;
use key_file::Feed;
use layout_reader::Layout;
use mcs48_isa::Image;
use run_probes::Probe;
use run_program::{End, ReadyRun, run_to, trace_to};
use std::alloc::Global;

/// Makes a run on the board and puts its log as it arises, and then, if the run is over, the state at its end if
/// that is wanted. It takes no memory.
fn put_log<F: Feed, K: Sink>(
    board: ReadyRun<F>,
    steps: bool,
    out: &mut K,
    probes: &mut Vec<Box<dyn Probe>>,
) -> Spoken
    requires accepted { IsAccepted (history_of board) }
    ensures says { let before = map (λ b. watch b) probes.old.items in
        let after = map (λ b. watch b) probes.new.items in
        IsSpoken (λ answer taking log. IsBoardSaid (BoardCommand.Log steps) board answer before
        (record { probes = after; taking = taking; log = log }))
        (Ok result) (K.shown out.old) (K.shown out.new) }
{
    match run_to(board, out, probes) {
        Err(fault) => Spoken::Said(Err(fault)),
        Ok(ended) => match ended.end() {
            End::Reached => Spoken::Said(put_end(
                out,
                ended.mcu(),
                ended.steps(),
                ended.cycles(),
                steps,
            )),
            End::Stuck(stuck) => Spoken::Stuck(stuck),
        },
    }
}

/// Makes a run on the board and puts its two wires as they change, and if `seen`, data as the controller sees it. It takes
/// no memory.
fn put_trace<F: Feed, K: Sink>(
    board: ReadyRun<F>,
    seen: bool,
    out: &mut K,
    probes: &mut Vec<Box<dyn Probe>>,
) -> Spoken
    requires accepted { IsAccepted (history_of board) }
    ensures says { let before = map (λ b. watch b) probes.old.items in
        let after = map (λ b. watch b) probes.new.items in
        IsSpoken (λ answer taking log. IsBoardSaid (BoardCommand.Trace seen) board answer before
        (record { probes = after; taking = taking; log = log }))
        (Ok result) (K.shown out.old) (K.shown out.new) }
{
    match trace_to(board, seen, out, probes) {
        Err(fault) => Spoken::Said(Err(fault)),
        Ok(ended) => match ended.end() {
            End::Reached => Spoken::Said(Ok(())),
            End::Stuck(stuck) => Spoken::Stuck(stuck),
        },
    }
}

/// Makes a run on the board and puts what is wanted of it as it arises. It takes no memory.
fn put_board<F: Feed, K: Sink>(
    board: ReadyRun<F>,
    wanted: BoardCommand,
    out: &mut K,
    probes: &mut Vec<Box<dyn Probe>>,
) -> Spoken
    requires accepted { IsAccepted (history_of board) }
    ensures says { let before = map (λ b. watch b) probes.old.items in
        let after = map (λ b. watch b) probes.new.items in
        IsSpoken (λ answer taking log. IsBoardSaid wanted board answer before
        (record { probes = after; taking = taking; log = log }))
        (Ok result) (K.shown out.old) (K.shown out.new) }
{
    match wanted {
        BoardCommand::Log { steps } => put_log(board, steps, out, probes),
        BoardCommand::Trace { seen } => put_trace(board, seen, out, probes),
    }
}

/// `board`, of an image, a layout and the text of a key file. The text is judged, and then each line is put as it arises in
/// the run. Memory is lacking only before anything is put.
pub fn run_board<K: Sink>(
    alloc: Global,
    wanted: BoardRun,
    image: &Image,
    layout: &Layout,
    text: &[u8],
    out: &mut K,
    probes: &mut Vec<Box<dyn Probe>>,
) -> Result<Spoken, Refusal>
    requires within { length text.now ≤ limit_of Kind.Keys }
    ensures says { let before = map (λ b. watch b) probes.old.items in
        let after = map (λ b. watch b) probes.new.items in
        IsSpoken (λ answer taking log. MaySayOfBoard wanted image.now.bytes layout.now text.now answer before
        (record { probes = after; taking = taking; log = log }))
        result (K.shown out.old) (K.shown out.new) }
    ensures unread { result ≡ Err Refusal.Read → ⊥ }
{
    let feed = events_in(text, layout)?;
    match ReadyRun::of_program(alloc, image, wanted.fill, feed) {
        Err(_) => Err(Refusal::Memory),
        Ok(board) => Ok(put_board(board, wanted.prints_what, out, probes)),
    }
}
