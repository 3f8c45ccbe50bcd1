//! A script, obeyed line by line in a session of its own.

ghost use Rattle.std.specs.Prelude.{◌≡◌, length, map, MatchResult};
ghost use Rattle.debugger.specs.declared.rule.LineFault.TheVariants.{Memory};
ghost use Rattle.debugger.specs.Faults.{IsRight};
ghost use Rattle.debugger.specs.Obeyed.{IsObeyed, IsObeyedInPart};

use crate::debuggee::Debuggee;
use crate::rule::LineFault;
use crate::session::Session;
use run_probes::Probe;
use std::alloc::Global;
use text_lines::next_line;

/// Obeys the lines of a script that is right, one after another, and gives what they print.
fn obey_lines(
    alloc: Global,
    session: &mut Session,
    script: &[u8],
    probes: &mut Vec<Box<dyn Probe>>,
) -> Result<Vec<u8>, LineFault>
    requires start { session.old.steps ≡ 0 }
    requires right { IsRight (length probes.old.items) script.now }
    ensures says { let before = map (λ b. watch b) probes.old.items in
        MatchResult result
        (λ text. IsObeyed session.old.debuggee script.now before text.items (map (λ b. watch b) probes.new.items))
        (λ fault. fault ≡ Memory) }
    ensures obeyed_so_far { let before = map (λ b. watch b) probes.old.items in
        IsObeyedInPart session.old.debuggee script.now before (map (λ b. watch b) probes.new.items) }
{
    let mut text = Vec::new(alloc);
    let mut rest = script;
    while let Some((line, after)) = next_line(rest) {
        session.line(alloc, line, probes, &mut text)?;
        rest = after;
    }
    Ok(text)
}

/// What the lines of a script that is right for these probes print in a session over the run of what is debugged, from
/// power-on. Only memory may run out: then the probes are those that some first lines leave.
pub fn obey_script(
    alloc: Global,
    debuggee: Debuggee,
    script: &[u8],
    probes: &mut Vec<Box<dyn Probe>>,
) -> Result<Vec<u8>, LineFault>
    requires right { IsRight (length probes.old.items) script.now }
    ensures says { let before = map (λ b. watch b) probes.old.items in
        MatchResult result
        (λ text. IsObeyed debuggee script.now before text.items (map (λ b. watch b) probes.new.items))
        (λ fault. fault ≡ Memory) }
    ensures obeyed_so_far { let before = map (λ b. watch b) probes.old.items in
        IsObeyedInPart debuggee script.now before (map (λ b. watch b) probes.new.items) }
{
    match Session::new(alloc, debuggee) {
        Err(_error) => Err(LineFault::Memory),
        Ok(mut session) => obey_lines(alloc, &mut session, script, probes),
    }
}
