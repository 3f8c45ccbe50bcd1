//! `board`: the files of a run on the board.

ghost use Rattle.std.specs.Prelude.{◌≡◌, ◌⊎◌, Err, map};
ghost use Rattle.io_edge.specs.Faults.{Rose};
ghost use Rattle.app_answers.specs.Spoken.{IsSpoken};
ghost use Rattle.kbd48_app.specs.Answers.{MayEnd};
ghost use Rattle.kbd48_app.specs.Plans.{Boards, program_plan};

use app_answers::{Spoken, fetch_file, image_in, layout_in};
use app_boards::run_board;
use app_words::{BoardRun, Kind, Refusal};
use io_edge::{Shelf, Sink};
use run_probes::Probe;
use std::alloc::Global;

/// `board`: fetches the image, the layout and the key file, judges each before the next is fetched, and then makes the
/// run.
pub fn over_board<F: Shelf, K: Sink>(
    alloc: Global,
    wanted: BoardRun,
    image: &str,
    layout: &str,
    keys: &str,
    shelf: &mut F,
    out: &mut K,
    probes: &mut Vec<Box<dyn Probe>>,
) -> Result<Spoken, Refusal>
    ensures ends { let before = map (λ b. watch b) probes.old.items in
        let after = map (λ b. watch b) probes.new.items in
        IsSpoken (λ answer taking log. MayEnd (program_plan (Boards wanted) image.now layout.now keys.now) (F.in_memory shelf.old)
        answer (F.in_memory shelf.new) before (record { probes = after; taking = taking; log = log }))
        result (K.shown out.old) (K.shown out.new) }
    ensures read { result ≡ Err Refusal.Read → Rose (F.faults shelf.old) (F.faults shelf.new) }
    ensures steady { (result ≡ Err Refusal.Read) ⊎ (F.faults shelf.new ≡ F.faults shelf.old) }
{
    let file = fetch_file(alloc, shelf, image, Kind::Hex)?;
    let image = image_in(&file)?;
    let document = fetch_file(alloc, shelf, layout, Kind::Layout)?;
    let layout = layout_in(alloc, &document)?;
    let text = fetch_file(alloc, shelf, keys, Kind::Keys)?;
    run_board(alloc, wanted, &image, &layout, &text, out, probes)
}
