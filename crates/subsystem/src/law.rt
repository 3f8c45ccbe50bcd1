//! The law of every run, the contract of a function that does nothing.

ghost use Rattle.subsystem.specs.Agreement.{RunsAsExpected};

use law_agreement::run_and_model_agree;
use law_quiet_log::{logs_are_limited, quiet_histories};

/// Every run of a layout's compiled image under a history that is lawful for it gives the log that the model expects
/// if its ticks start when the run's do, and each of these starts is at its multiple of 2,048 or one cycle past it; for a
/// quiet history it is a function of layout and history alone. The log of an accepted history has fewer than 800,000 items. Nothing is done when it is
/// called; the law is its contract.
pub fn runs_are_expected()
    ensures expected { RunsAsExpected }
{
    run_and_model_agree();
    quiet_histories();
    logs_are_limited();
}
