//! `debug` and `probe`: the files of a session.

ghost use Rattle.std.specs.Prelude.{◌≡◌, ◌⊎◌, [], Err, map};
ghost use Rattle.io_edge.specs.Faults.{Rose};
ghost use Rattle.app_answers.specs.Answers.{answer_of};
ghost use Rattle.app_answers.specs.Taking.{Taking};
ghost use Rattle.kbd48_app.specs.Answers.{MayEnd};
ghost use Rattle.kbd48_app.specs.Plans.{debug_plan, probe_plan, script_next};

use app_answers::{fetch_file, history_in, image_in, layout_in};
use app_boards::debug;
use app_words::{Kind, Refusal};
use debugger::{Debuggee, check_script};
use io_edge::Shelf;
use run_probes::Probe;
use std::alloc::Global;

/// Once it is known what is debugged: fetches the script, judges it, and obeys its lines.
fn over_script<F: Shelf>(
    alloc: Global,
    debuggee: Debuggee,
    script: &str,
    shelf: &mut F,
    probes: &mut Vec<Box<dyn Probe>>,
) -> Result<Vec<u8>, Refusal>
    ensures ends { (taking : Taking) → MayEnd (script_next script.now debuggee) (F.in_memory shelf.old)
        (answer_of result) (F.in_memory shelf.new) (map (λ b. watch b) probes.old.items)
        (record { probes = map (λ b. watch b) probes.new.items; taking = taking; log = [] }) }
    ensures read { result ≡ Err Refusal.Read → Rose (F.faults shelf.old) (F.faults shelf.new) }
    ensures steady { (result ≡ Err Refusal.Read) ⊎ (F.faults shelf.new ≡ F.faults shelf.old) }
{
    let script = fetch_file(alloc, shelf, script, Kind::Script)?;
    let verdict = check_script(&script, probes.len());
    debug(alloc, debuggee, &script, verdict, probes)
}

/// `debug`: fetches the layout, the key file and the script, judges each before the next is fetched, and then obeys the
/// script's lines.
pub fn over_debug<F: Shelf>(
    alloc: Global,
    layout: &str,
    keys: &str,
    script: &str,
    shelf: &mut F,
    probes: &mut Vec<Box<dyn Probe>>,
) -> Result<Vec<u8>, Refusal>
    ensures ends { (taking : Taking) → MayEnd (debug_plan layout.now keys.now script.now) (F.in_memory shelf.old)
        (answer_of result) (F.in_memory shelf.new) (map (λ b. watch b) probes.old.items)
        (record { probes = map (λ b. watch b) probes.new.items; taking = taking; log = [] }) }
    ensures read { result ≡ Err Refusal.Read → Rose (F.faults shelf.old) (F.faults shelf.new) }
    ensures steady { (result ≡ Err Refusal.Read) ⊎ (F.faults shelf.new ≡ F.faults shelf.old) }
{
    let document = fetch_file(alloc, shelf, layout, Kind::Layout)?;
    let layout = layout_in(alloc, &document)?;
    let text = fetch_file(alloc, shelf, keys, Kind::Keys)?;
    let history = history_in(alloc, &text, &layout)?;
    let debuggee = Debuggee::of_layout(&layout, history);
    over_script(alloc, debuggee, script, shelf, probes)
}

/// `probe`, in a part whose data memory, A and T hold this byte at power-on: fetches the image, the layout, the key file and
/// the script, judges each before the next is fetched, and then obeys the script's lines.
pub fn over_probe<F: Shelf>(
    alloc: Global,
    fill: u8,
    image: &str,
    layout: &str,
    keys: &str,
    script: &str,
    shelf: &mut F,
    probes: &mut Vec<Box<dyn Probe>>,
) -> Result<Vec<u8>, Refusal>
    ensures ends { (taking : Taking) → MayEnd (probe_plan fill image.now layout.now keys.now script.now) (F.in_memory shelf.old)
        (answer_of result) (F.in_memory shelf.new) (map (λ b. watch b) probes.old.items)
        (record { probes = map (λ b. watch b) probes.new.items; taking = taking; log = [] }) }
    ensures read { result ≡ Err Refusal.Read → Rose (F.faults shelf.old) (F.faults shelf.new) }
    ensures steady { (result ≡ Err Refusal.Read) ⊎ (F.faults shelf.new ≡ F.faults shelf.old) }
{
    let file = fetch_file(alloc, shelf, image, Kind::Hex)?;
    let image = image_in(&file)?;
    let document = fetch_file(alloc, shelf, layout, Kind::Layout)?;
    let layout = layout_in(alloc, &document)?;
    let text = fetch_file(alloc, shelf, keys, Kind::Keys)?;
    let history = history_in(alloc, &text, &layout)?;
    let debuggee = Debuggee::of_program(image, history).with_fill(fill);
    over_script(alloc, debuggee, script, shelf, probes)
}
