//! A run of any program on the board, in bounded memory: its events come from a feed, and its log goes to a sink.

ghost use Rattle.std.specs.Prelude.{◌≡◌, map, IfOk, OnErr};
ghost use Rattle.io_edge.specs.Said.{IsSaid};
ghost use Rattle.key_file.specs.Accepted.{IsAccepted};
ghost use Rattle.run_loop.specs.declared.ending.Ending.TheVariants.{Stamp};
ghost use Rattle.run_loop.specs.Gliding.{history_of};
ghost use Rattle.run_probes.specs.Looks.{looks};
ghost use Rattle.run_program.specs.BoardOutcomes.{IsOutcome};
ghost use Rattle.run_program.specs.Ending.{ending};
ghost use Rattle.run_program.specs.Putting.{HaveLookedAtSome, HaveLookedToBreak, IsLogBrokenOff};
ghost use Rattle.run_program.specs.Texts.{log_text};
ghost use Rattle.run_program.specs.Tracing.{IsTraceBrokenOff};
ghost use Rattle.run_wires.specs.Ending.{HaveTracedToBreak};
ghost use Rattle.run_wires.specs.Trace.{trace_to};

use crate::reporting::ByStamp;
use io_edge::{Sink, SinkFault};
use key_file::Feed;
use run_loop::{Ending, Finished, ReadyRun};
use run_probes::Probe;
use run_wires::put_trace;

/// Makes the joint run from power-on to its end, which is before the first step that would begin at or after the
/// end stamp, or would execute a byte that begins no instruction, whichever is first; and takes no memory. After
/// each step each probe looks at the state that it led to, and then each line of the log that arose in the step is
/// put, whole and alone.
///
/// On Ok the sink has taken the whole text of the log, its count of faults is as it was, and the probes have
/// looked at each state. A failure comes only if a put failed. A sink that shows what it took has the text of the
/// whole log up to that put, and the probes have looked at the states up to the one of the step that said the
/// line.
pub fn run_to<F: Feed, K: Sink>(
    run: ReadyRun<F>,
    out: &mut K,
    probes: &mut Vec<Box<dyn Probe>>,
) -> Result<Finished, SinkFault>
    requires accepted { IsAccepted (history_of run) }
    ensures run { IfOk result (λ made. IsOutcome run (ending run made)) }
    ensures said { IfOk result (λ made. IsSaid (K.shown out.old) (K.shown out.new) (log_text (ending run made).log)) }
    ensures broken { OnErr result (IsLogBrokenOff run (K.shown out.old) (K.shown out.new)) }
    ensures looked { let before = map (λ b. watch b) probes.old.items in
        IfOk result (λ made. map (λ b. watch b) probes.new.items ≡ looks run made.joint.steps before) }
    ensures looked_so_far { HaveLookedAtSome run (map (λ b. watch b) probes.old.items) (map (λ b. watch b) probes.new.items) }
    ensures looked_to_break { OnErr result (HaveLookedToBreak run (K.shown out.old)
        (K.shown out.new) (map (λ b. watch b) probes.old.items) (map (λ b. watch b) probes.new.items)) }
{
    run.make::<K, SinkFault, ByStamp, 7>(Ending::Stamp, &mut ByStamp, out, probes)
}

/// Makes the same run, and in place of its log puts its trace: the two wires as a value change dump, and if `seen`, data as
/// the controller sees it, too.
///
/// On Ok the sink has taken the whole text, its count of faults is as it was, and the probes have looked at each
/// state. A failure comes only if a put failed. A sink that shows what it took has a prefix of the text, and the
/// probes have looked at the states up to the one whose sample adds the line; in the header, at none.
pub fn trace_to<F: Feed, K: Sink>(
    run: ReadyRun<F>,
    seen: bool,
    out: &mut K,
    probes: &mut Vec<Box<dyn Probe>>,
) -> Result<Finished, SinkFault>
    requires accepted { IsAccepted (history_of run) }
    ensures run { IfOk result (λ made. IsOutcome run (ending run made)) }
    ensures said { IfOk result (λ made. IsSaid (K.shown out.old) (K.shown out.new) (trace_to seen run made.joint.steps)) }
    ensures broken { OnErr result (IsTraceBrokenOff seen run (K.shown out.old) (K.shown out.new)) }
    ensures looked { let before = map (λ b. watch b) probes.old.items in
        IfOk result (λ made. map (λ b. watch b) probes.new.items ≡ looks run made.joint.steps before) }
    ensures looked_so_far { HaveLookedAtSome run (map (λ b. watch b) probes.old.items) (map (λ b. watch b) probes.new.items) }
    ensures looked_to_break { OnErr result (HaveTracedToBreak seen Stamp run (K.shown out.old)
        (K.shown out.new) (map (λ b. watch b) probes.old.items) (map (λ b. watch b) probes.new.items)) }
{
    if seen {
        return put_trace::<F, K, true, 13>(run, Ending::Stamp, out, probes);
    }
    put_trace::<F, K, false, 8>(run, Ending::Stamp, out, probes)
}
