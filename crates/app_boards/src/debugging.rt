//! `debug` and `probe`: what the lines of a script say in a session over the run of a layout, or of any program, under a
//! key history.

ghost use Rattle.std.specs.Prelude.{◌≡◌, [], Err, length, map, MatchResult};
ghost use Rattle.debugger.specs.Faults.{IsRight, IsVerdict};
ghost use Rattle.debugger.specs.Obeyed.{IsObeyed, IsObeyedInPart};
ghost use Rattle.debugger.specs.Scripts.{script_of};
ghost use Rattle.app_answers.specs.Answers.{answer_of};
ghost use Rattle.app_answers.specs.Taking.{Taking};
ghost use Rattle.app_boards.specs.Debugging.{script_refusal};
ghost use Rattle.app_boards.specs.SessionAnswers.{MayAnswerDebug};

use app_words::Refusal;
use debugger::{Debuggee, SessionFault, obey_script};
use run_probes::Probe;
use std::alloc::Global;

/// What the lines of a script that is right for these probes print in a session over the run of what is debugged.
fn over_session(
    alloc: Global,
    debuggee: Debuggee,
    script: &[u8],
    probes: &mut Vec<Box<dyn Probe>>,
) -> Result<Vec<u8>, Refusal>
    requires right { IsRight (length probes.old.items) script.now }
    ensures says { let before = map (λ b. watch b) probes.old.items in
        MatchResult result
        (λ text. IsObeyed debuggee script.now before text.items (map (λ b. watch b) probes.new.items))
        (λ refusal. refusal ≡ Refusal.Memory) }
    ensures obeyed_so_far { let before = map (λ b. watch b) probes.old.items in
        IsObeyedInPart debuggee script.now before (map (λ b. watch b) probes.new.items) }
{
    match obey_script(alloc, debuggee, script, probes) {
        Ok(text) => Ok(text),
        Err(_memory) => Err(Refusal::Memory),
    }
}

/// The refusal of a script, by its first fault.
fn refusal_of(fault: SessionFault) -> Refusal
    ensures { result ≡ script_refusal fault }
{
    match fault {
        SessionFault::Line { line, number } => Refusal::Script { line, number },
    }
}

/// Refuses a script with a fault, by the verdict on it; obeys the lines of any other.
pub fn debug(
    alloc: Global,
    debuggee: Debuggee,
    script: &[u8],
    verdict: Result<(), SessionFault>,
    probes: &mut Vec<Box<dyn Probe>>,
) -> Result<Vec<u8>, Refusal>
    requires judged { IsVerdict (script_of (length probes.old.items) script.now) verdict }
    ensures says { let before = map (λ b. watch b) probes.old.items in (taking : Taking) →
        MayAnswerDebug debuggee script.now (answer_of result) before
        (record { probes = map (λ b. watch b) probes.new.items; taking = taking; log = [] }) }
    ensures unread { result ≡ Err Refusal.Read → ⊥ }
{
    match verdict {
        Err(fault) => Err(refusal_of(fault)),
        Ok(()) => over_session(alloc, debuggee, script, probes),
    }
}
