//! A keyboard that was opened and run until it is ready has put out the AA of its self-test, and nothing else waits.
//!
//! This layer has a law alone, over `live_board`, the agreement of run and model, and the model's laws; nothing calls it for
//! what it does. Source: our own.
#![tactic(auto)]

ghost use Rattle.law_ready_agrees.specs.Opened.{ReadyHasPutOut};

use law_agreement::run_and_model_agree;
use law_link_times::nothing_is_read_twice;
use law_live_agrees::{calls_agree, never_stuck};

/// A keyboard that was opened with a layout's compiled image and run until it is ready: the rise of its interrupt line ended
/// that run. The line is up, AA is in the output buffer, and INT 09h has read nothing. No key has moved, and INT 09h was masked
/// at stamp 0 or 1, so its past is lawful for the layout. It is in tick 64 of its run, in which the model sends AA; at the next
/// tick start data memory shows the model's keyboard, in which nothing waits. Nothing is done when it is called; the law is its
/// contract.
pub fn ready_has_put_out()
    ensures ready { ReadyHasPutOut }
{
    calls_agree();
    never_stuck();
    run_and_model_agree();
    nothing_is_read_twice();
}
