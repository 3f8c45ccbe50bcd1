//! What runs have to do with each other: the run of a layout's image, the run of the same image on the board, and a
//! debugger's session over it.
//!
//! This layer knows what each kind of run comes to, and that a layout's image keeps its time. It proves if the runs
//! end, and which of them say the same. Nothing depends on it for what it does. It must not know how a run is made.
//! Source: our own.
#![tactic(auto)]

ghost use Rattle.law_runs_agree.specs.Alike.{BoardsAreAlike, RunsAreAlike};
ghost use Rattle.law_runs_agree.specs.Boards.{BoardsSayRuns};
ghost use Rattle.law_runs_agree.specs.Outcomes.{RunsComeToOutcomes};
ghost use Rattle.law_runs_agree.specs.Sessions.{SessionsEndWithRuns};

use law_agreement::run_and_model_agree;

/// A program, edges of keys, events of the host, an end stamp and what the part held at power-on have one run: two runs of
/// them are the same. Nothing is done when it is called; the law is its contract.
pub fn runs_are_alike()
    ensures alike { RunsAreAlike }
{}

/// The same have one run on the board: two runs of them are the same. Nothing is done when it is called; the law is its
/// contract.
pub fn boards_are_alike()
    ensures alike { BoardsAreAlike }
{}

/// If the run of a layout's compiled image, under a history that is lawful for it, is over, it has reached an outcome,
/// of as many steps. Nothing is done when it is called; the law is its contract.
pub fn runs_come_to_outcomes()
    ensures outcomes { RunsComeToOutcomes }
{
    run_and_model_agree();
}

/// A debugger's session over a layout's compiled image, under a history that is lawful for it, ends exactly at the step
/// at which the run of `run` does: it makes each of the run's steps, and none after them. Nothing is done when it is
/// called; the law is its contract.
pub fn sessions_end_with_runs()
    ensures ends { SessionsEndWithRuns }
{
    run_and_model_agree();
}

/// A layout's compiled image, under a history that is lawful for it, says on the board what the layout's run says,
/// item by item in the same cycles, up to the end stamp, and is never stuck. The layout's run goes on to the first
/// tick start at or after the end stamp, and may say more until then. Nothing is done when it is called; the law is
/// its contract.
pub fn boards_say_runs()
    ensures report { BoardsSayRuns }
{
    run_and_model_agree();
}
