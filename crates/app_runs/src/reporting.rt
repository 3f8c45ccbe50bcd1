//! `expect`: what the model says of the run of a layout under a key history.

ghost use Rattle.std.specs.Prelude.{◌≡◌, ◌≤◌, ◌-◌, [], length, map, Err, IfOk};
ghost use Rattle.board_terms.specs.Cadence.{KeepsCadenceTo, listed};
ghost use Rattle.fw_compile.specs.Image.{image_of};
ghost use Rattle.key_file.specs.Accepted.{IsAcceptedFor};
ghost use Rattle.joint_feed.specs.Stories.{story};
ghost use Rattle.subsystem.specs.LayoutOutcomes.{IsOutcome, Outcome};
ghost use Rattle.app_answers.specs.Answers.{answer_of};
ghost use Rattle.app_answers.specs.Leaving.{HaveLookedAtAll};
ghost use Rattle.app_answers.specs.Taking.{Taking};
ghost use Rattle.app_runs.specs.RunTexts.{HaveLooked, IsRunText, expected_text};
ghost use Rattle.app_runs.specs.RunOfText.{MaySayOfText};
ghost use Rattle.app_words.specs.declared.kind.Kind.{Kind};
ghost use Rattle.app_words.specs.declared.words.RunCommand.{RunCommand};
ghost use Rattle.app_words.specs.Kinds.{limit_of};

use app_answers::history_in;
use app_words::Refusal;
use key_file::History;
use layout_reader::Layout;
use model_link::expect;
use run_probes::Probe;
use std::alloc::{AllocError, Global};
use subsystem::{print_log, runs_are_expected, tick_starts};

/// The model's log at the tick starts of the run of a layout's compiled image under a history.
fn expected_text(
    alloc: Global,
    layout: &Layout,
    history: &History,
    starts: &[u64],
) -> Result<Vec<u8>, AllocError>
    requires accepted { IsAcceptedFor layout.now history.now }
    requires runs { (run : Outcome) × IsOutcome (story (image_of layout.now) history.now) run × (starts.now ≡ run.starts) }
    requires cadence { KeepsCadenceTo (listed starts.now) (length starts.now - 1) }
    ensures { (run : Outcome) → starts.now ≡ run.starts
        → IfOk result (λ text. text.items ≡ expected_text layout.now history.now run) }
{
    let log = expect(alloc, layout, history, starts)?;
    print_log(alloc, &log)
}

/// What `expect` says of the run of a layout's compiled image under a history.
pub fn report(
    alloc: Global,
    layout: &Layout,
    history: &History,
    probes: &mut Vec<Box<dyn Probe>>,
) -> Result<Vec<u8>, AllocError>
    requires accepted { IsAcceptedFor layout.now history.now }
    ensures text { IfOk result (λ text. (run : Outcome) × IsRunText RunCommand.Expect layout.now history.now text.items run
        × HaveLookedAtAll (story (image_of layout.now) history.now) run.steps (map (λ b. watch b) probes.old.items)
        (map (λ b. watch b) probes.new.items)) }
    ensures looked { HaveLooked layout.now history.now
        (map (λ b. watch b) probes.old.items) (map (λ b. watch b) probes.new.items) }
{
    runs_are_expected();
    let starts = tick_starts(alloc, layout, history, probes)?;
    expected_text(alloc, layout, history, &starts)
}

/// `expect`, of a layout and the text of a key file. The text is judged and its history is kept, and then the run is made.
pub fn expected(
    alloc: Global,
    layout: &Layout,
    text: &[u8],
    probes: &mut Vec<Box<dyn Probe>>,
) -> Result<Vec<u8>, Refusal>
    requires within { length text.now ≤ limit_of Kind.Keys }
    ensures says { let before = map (λ b. watch b) probes.old.items in
        let after = map (λ b. watch b) probes.new.items in
        (taking : Taking) → MaySayOfText RunCommand.Expect layout.now text.now (answer_of result) before
        (record { probes = after; taking = taking; log = [] }) }
    ensures unread { result ≡ Err Refusal.Read → ⊥ }
{
    let history = history_in(alloc, text, layout)?;
    match report(alloc, layout, &history, probes) {
        Ok(text) => Ok(text),
        Err(_) => Err(Refusal::Memory),
    }
}
