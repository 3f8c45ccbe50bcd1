//! `capture`: the file of a capture, and with `--keys` the layout before it.

ghost use Rattle.std.specs.Prelude.{◌≡◌, ◌⊎◌, [], List, Err};
ghost use Rattle.io_edge.specs.Faults.{Rose};
ghost use Rattle.run_probes.specs.Probes.{Watch};
ghost use Rattle.app_answers.specs.Answers.{answer_of};
ghost use Rattle.app_answers.specs.Spoken.{IsSpoken};
ghost use Rattle.app_answers.specs.Taking.{Taking};
ghost use Rattle.kbd48_app.specs.Answers.{MayEnd};
ghost use Rattle.kbd48_app.specs.Plans.{capture_plan, typed_plan};

use app_answers::{Spoken, fetch_file, layout_in, say_capture, type_capture};
use app_words::{Kind, Refusal};
use io_edge::{Shelf, Sink};
use std::alloc::Global;

/// `capture`: fetches the dump, and says what is found in it, with these names of the clock's signal and of the data wire's.
pub fn over_capture<F: Shelf, K: Sink>(
    alloc: Global,
    dump: &str,
    clk: &str,
    dat: &str,
    shelf: &mut F,
    out: &mut K,
) -> Result<Spoken, Refusal>
    ensures ends { (probes : List Watch) →
        IsSpoken (λ answer taking log. MayEnd (capture_plan clk.now dat.now dump.now) (F.in_memory shelf.old)
        answer (F.in_memory shelf.new) probes (record { probes = probes; taking = taking; log = log }))
        result (K.shown out.old) (K.shown out.new) }
    ensures read { result ≡ Err Refusal.Read → Rose (F.faults shelf.old) (F.faults shelf.new) }
    ensures steady { (result ≡ Err Refusal.Read) ⊎ (F.faults shelf.new ≡ F.faults shelf.old) }
{
    let file = fetch_file(alloc, shelf, dump, Kind::Vcd)?;
    say_capture(alloc, &file, clk, dat, out)
}

/// `capture --keys`: fetches the layout and judges it, and then fetches the dump, and says what was typed in it on the layout,
/// with these names of the clock's signal and of the data wire's.
pub fn over_typed<F: Shelf>(
    alloc: Global,
    layout: &str,
    dump: &str,
    clk: &str,
    dat: &str,
    shelf: &mut F,
) -> Result<Vec<u8>, Refusal>
    ensures ends { (probes : List Watch) (taking : Taking) → MayEnd (typed_plan clk.now dat.now layout.now dump.now)
        (F.in_memory shelf.old) (answer_of result) (F.in_memory shelf.new) probes (record { probes = probes; taking = taking; log = [] }) }
    ensures read { result ≡ Err Refusal.Read → Rose (F.faults shelf.old) (F.faults shelf.new) }
    ensures steady { (result ≡ Err Refusal.Read) ⊎ (F.faults shelf.new ≡ F.faults shelf.old) }
{
    let document = fetch_file(alloc, shelf, layout, Kind::Layout)?;
    let layout = layout_in(alloc, &document)?;
    let file = fetch_file(alloc, shelf, dump, Kind::Vcd)?;
    type_capture(alloc, &layout, &file, clk, dat)
}
