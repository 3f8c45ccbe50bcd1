//! The trace of a run.

ghost use Rattle.std.specs.Prelude.{◌≡◌, map, Err, IfOk, OnErr, OnOk};
ghost use Rattle.fw_compile.specs.Image.{image_of};
ghost use Rattle.io_edge.specs.Said.{IsBrokenOff, IsSaid};
ghost use Rattle.joint_feed.specs.Stories.{story};
ghost use Rattle.key_file.specs.Accepted.{IsAcceptedFor};
ghost use Rattle.key_file.specs.Feeds.{Fed};
ghost use Rattle.layout_reader.specs.Layouts.{IsKeyLayout, KeyLayout};
ghost use Rattle.run_loop.specs.declared.ending.Ending.TheVariants.{TickStart};
ghost use Rattle.run_loop.specs.Finished.{IsFinished};
ghost use Rattle.run_loop.specs.Gliding.{IsTimely};
ghost use Rattle.run_loop.specs.Looking.{HaveLookedAtSome};
ghost use Rattle.run_probes.specs.Looks.{looks};
ghost use Rattle.run_wires.specs.declared.fault.TraceFault.TheVariants.{Memory, Write};
ghost use Rattle.run_wires.specs.Ending.{HaveTracedToBreak, IsTraceBrokenOff, IsTraceSaid};
ghost use Rattle.run_wires.specs.Text.{header};
ghost use Rattle.run_wires.specs.Trace.{trace_to};
ghost use Rattle.law_wires_heard.specs.Hearing.{HearsAll};

use crate::fault::TraceFault;
use crate::reporting::Changes;
use io_edge::{Sink, SinkFault, say};
use key_file::Feed;
use law_agreement::run_and_model_agree;
use law_wires_heard::wires_are_heard;
use layout_reader::Layout;
use run_loop::{Ending, Finished, ReadyRun};
use run_probes::Probe;
use std::alloc::Global;

/// What is before the first sample of the two wires.
const HEADER: &[u8] =
    b"$timescale 100 ns $end\n$scope module kbd $end\n$var wire 1 c clock $end\n$var wire 1 d data $end\n$upscope $end\n$enddefinitions $end\n#0\n1c\n1d\n";

/// The same, if data as the controller sees it is put, too.
const HEADER_WITH_SEEN: &[u8] =
    b"$timescale 100 ns $end\n$scope module kbd $end\n$var wire 1 c clock $end\n$var wire 1 d data $end\n$var wire 1 s data_seen $end\n$upscope $end\n$enddefinitions $end\n#0\n1c\n1d\n1s\n";

/// Puts what is before the first sample: the unit of time, the signals with their letters, and that all are high at time
/// 0. They are the two wires, and if `seen`, data as the controller sees it.
fn put_header<K: Sink>(out: &mut K, seen: bool) -> Result<(), SinkFault>
    ensures said { OnOk result (IsSaid (K.shown out.old) (K.shown out.new) (header seen)) }
    ensures broken { OnErr result (IsBrokenOff (K.shown out.old) (K.shown out.new) (header seen)) }
{
    if seen {
        return say(out, HEADER_WITH_SEEN);
    }
    say(out, HEADER)
}

/// Makes a run, and puts its two wires as a value change dump, each line whole. The wires are sampled after each step, after
/// the probes' look; each change has its time, in units of 100 ns, of which a cycle has 25; and a byte whose frame is whole,
/// so that the decoder hears it, is a comment after the change that completes it. `SEEN` says whether each change has the
/// level of data that the controller sees, too: the other one while the clock is low in a bit of the keyboard that noise
/// turns. `SITE` is a number that no other place of the program gives.
///
/// On Ok the sink has taken the whole text, its count of faults is as it was, and the probes have looked at each state. A
/// failure comes only if a put failed. A sink that shows what it took has a prefix of the text, and the probes have looked
/// at the states up to the one whose sample adds the line; in the header, at none.
#[inline(always)]
pub fn put_trace<F: Feed, K: Sink, const SEEN: bool, const SITE: u8>(
    run: ReadyRun<F>,
    ending: Ending,
    out: &mut K,
    probes: &mut Vec<Box<dyn Probe>>,
) -> Result<Finished, SinkFault>
    requires timely { IsTimely ending run }
    ensures finished { IfOk result (λ made. IsFinished ending run made) }
    ensures said { IfOk result (λ made. IsSaid (K.shown out.old) (K.shown out.new) (trace_to SEEN run made.joint.steps)) }
    ensures looked { let before = map (λ b. watch b) probes.old.items in
        IfOk result (λ made. map (λ b. watch b) probes.new.items ≡ looks run made.joint.steps before) }
    ensures looked_so_far { HaveLookedAtSome ending run
        (map (λ b. watch b) probes.old.items) (map (λ b. watch b) probes.new.items) }
    ensures broken { OnErr result (HaveTracedToBreak SEEN ending run (K.shown out.old) (K.shown out.new)
        (map (λ b. watch b) probes.old.items) (map (λ b. watch b) probes.new.items)) }
{
    put_header(out, SEEN)?;
    let mut changes = Changes::<SEEN>::new();
    run.make::<K, SinkFault, Changes<SEEN>, SITE>(ending, &mut changes, out, probes)
}

/// Puts the trace of a run of a program that keeps its time, at which no probe looks; if `seen`, with data as the controller
/// sees it.
fn put_timely<F: Feed, K: Sink>(
    alloc: Global,
    run: ReadyRun<F>,
    seen: bool,
    out: &mut K,
) -> Result<Finished, SinkFault>
    requires timely { IsTimely TickStart run }
    ensures said { OnOk result (IsTraceSaid seen run (K.shown out.old) (K.shown out.new)) }
    ensures broken { OnErr result (IsTraceBrokenOff seen run (K.shown out.old) (K.shown out.new)) }
{
    let mut probes = Vec::new(alloc);
    if seen {
        return put_trace::<F, K, true, 12>(run, Ending::TickStart, out, &mut probes);
    }
    put_trace::<F, K, false, 11>(run, Ending::TickStart, out, &mut probes)
}

/// Puts the trace of the run of a layout's compiled image, under the history of a feed of which nothing was taken and which is
/// accepted for this layout, from power-on to the first tick start at or after the end stamp; if `seen`, with data as the
/// controller sees it.
///
/// On Ok the whole text was said, and the sink's count of faults is as it was. Write comes only if that count rose: then
/// the saying was broken off, and a sink that shows what it took has a prefix of the text. Memory comes only before
/// anything is put: the sink is as it was, and the feed is given up.
///
/// The bytes in the comments are, in order, those that the controller takes and sends: each is in the sample after the
/// step in one of whose cycles its frame's eleventh edge ends it, and no frame that is broken off is among them.
pub fn trace<F: Feed, K: Sink>(
    alloc: Global,
    layout: &Layout,
    feed: F,
    seen: bool,
    out: &mut K,
) -> Result<(), TraceFault>
    requires no_edge { (F.feeds feed).edges ≡ 0 }
    requires no_host { (F.feeds feed).host ≡ 0 }
    requires accepted { IsAcceptedFor layout.now (F.feeds feed).history }
    ensures layout { IsKeyLayout layout.now }
    ensures said { let run = story (image_of layout.now) (F.feeds feed).history in
        OnOk result (IsTraceSaid seen run (K.shown out.old) (K.shown out.new)) }
    ensures heard { HearsAll (story (image_of layout.now) (F.feeds feed).history) }
    ensures broken { let run = story (image_of layout.now) (F.feeds feed).history in
        result ≡ Err Write → IsTraceBrokenOff seen run (K.shown out.old) (K.shown out.new) }
    ensures nothing { result ≡ Err Memory → K.shown out.new ≡ K.shown out.old }
{
    run_and_model_agree();
    wires_are_heard();
    match ReadyRun::of_layout(alloc, layout, feed) {
        Err(_error) => Err(TraceFault::Memory),
        Ok(run) => match put_timely(alloc, run, seen, out) {
            Err(_fault) => Err(TraceFault::Write),
            Ok(_run) => Ok(()),
        },
    }
}
