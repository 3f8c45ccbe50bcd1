//! The run.

ghost use Rattle.std.specs.Prelude.{◌≡◌, ◌<◌, ◌-◌, true, length, map, IfOk};
ghost use Rattle.board_terms.specs.Cadence.{KeepsCadenceTo, listed};
ghost use Rattle.fw_compile.specs.Image.{image_of};
ghost use Rattle.run_probes.specs.Looks.{looks};
ghost use Rattle.joint_feed.specs.Stories.{story};
ghost use Rattle.key_file.specs.Accepted.{IsAcceptedFor};
ghost use Rattle.layout_reader.specs.Layouts.{IsKeyLayout};
ghost use Rattle.model_link.specs.Expected.{expected_log};
ghost use Rattle.law_quiet_log.specs.Quiet.{IsQuiet, quiet_log};
ghost use Rattle.subsystem.specs.Looking.{HaveLookedAtSome};
ghost use Rattle.subsystem.specs.LayoutOutcomes.{IsRun};

use crate::law::runs_are_expected;
use crate::outcome::{Run, copied};
use crate::reporting::Keeping;
use crate::starts::Starts;
use key_file::{History, ListFeed};
use law_agreement::run_and_model_agree;
use layout_reader::Layout;
use model_link::LogLine;
use run_loop::{Ending, ReadyRun};
use run_probes::Probe;
use std::alloc::{AllocError, Global};

/// The joint run of a layout's compiled image under a history that is accepted for it, from power-on to the first tick start
/// at or after the end stamp, before the step that begins there. After each step each probe looks at the state that it led
/// to.
///
/// It always comes to its end: the image keeps its time, and meets no byte without an instruction. Its log is the one that
/// the model expects at the run's own tick starts; for a quiet history it is a function of layout and history alone. It has
/// fewer than 800,000 items. Each start is at its multiple of 2,048 or at most five cycles past it, and at the last one the
/// processor serves the timer's interrupt, in register bank 1. Only memory may run out: then the probes have looked at
/// the states of some first steps.
pub fn run(
    alloc: Global,
    layout: &Layout,
    history: &History,
    probes: &mut Vec<Box<dyn Probe>>,
) -> Result<Run, AllocError>
    requires { IsAcceptedFor layout.now history.now }
    ensures layout { IsKeyLayout layout.now }
    ensures run { IfOk result (λ run. IsRun (story (image_of layout.now) history.now) run) }
    ensures agrees { IfOk result (λ run. run.log.items ≡ expected_log layout.now history.now run.starts.items) }
    ensures quiet { IfOk result (λ run. IsQuiet history.now → run.log.items ≡ quiet_log layout.now history.now) }
    ensures cadence { IfOk result (λ run. KeepsCadenceTo (listed run.starts.items) (length run.starts.items - 1)) }
    ensures few { IfOk result (λ run. length run.log.items < 800000) }
    ensures serves { IfOk result (λ run. run.end.svc ≡ true) }
    ensures bank { IfOk result (λ run. run.end.rb ≡ true) }
    ensures looked { let s = story (image_of layout.now) history.now in
        let before = map (λ b. watch b) probes.old.items in
        IfOk result (λ run. map (λ b. watch b) probes.new.items ≡ looks s run.steps before) }
    ensures looked_so_far { let s = story (image_of layout.now) history.now in
        HaveLookedAtSome s (map (λ b. watch b) probes.old.items) (map (λ b. watch b) probes.new.items) }
{
    run_and_model_agree();
    runs_are_expected();
    let feed = ListFeed::new(history);
    let ready = ReadyRun::of_layout(alloc, layout, feed)?;
    let mut log = Vec::new(alloc);
    let stamps = Vec::new(alloc);
    let mut keeping = Keeping {
        starts: Starts { stamps },
    };
    let made = ready.make::<Vec<LogLine>, AllocError, Keeping, 4>(
        Ending::TickStart,
        &mut keeping,
        &mut log,
        probes,
    )?;
    Ok(Run {
        log,
        starts: keeping.starts.stamps,
        end: copied(made.mcu()),
        steps: made.steps(),
        cycles: made.cycles(),
    })
}
