//! A run in bounded memory: its events come from a feed, and its log goes to a sink as it arises.

ghost use Rattle.std.specs.Prelude.{◌≡◌, ◌-◌, length, map, IfOk, OnErr};
ghost use Rattle.board_terms.specs.Cadence.{KeepsCadenceTo, listed};
ghost use Rattle.fw_compile.specs.Image.{image_of};
ghost use Rattle.run_probes.specs.Looks.{looks};
ghost use Rattle.io_edge.specs.Said.{IsSaid};
ghost use Rattle.joint_feed.specs.Stories.{story};
ghost use Rattle.key_file.specs.Accepted.{IsAccepted, IsAcceptedFor};
ghost use Rattle.key_file.specs.Feeds.{Fed};
ghost use Rattle.layout_reader.specs.Layouts.{IsKeyLayout, KeyLayout};
ghost use Rattle.subsystem.specs.Agreement.{IsAsExpected};
ghost use Rattle.subsystem.specs.Counts.{none_counted, with_lines};
ghost use Rattle.subsystem.specs.Ending.{ending};
ghost use Rattle.run_loop.specs.Gliding.{history_of};
ghost use Rattle.subsystem.specs.Looking.{HaveLookedAtSome};
ghost use Rattle.subsystem.specs.Putting.{HaveLookedToBreak, IsLogBrokenOff};
ghost use Rattle.subsystem.specs.LayoutOutcomes.{IsOutcome};
ghost use Rattle.subsystem.specs.Texts.{log_text};

use crate::counts::Counts;
use crate::ended::Ended;
use crate::law::runs_are_expected;
use crate::outcome::copied;
use crate::reporting::Putting;
use crate::starts::Starts;
use board_terms::TICK_CYCLES;
use io_edge::{Sink, SinkFault};
use key_file::Feed;
use law_agreement::run_and_model_agree;
use layout_reader::Layout;
use run_loop::{Ending, ReadyRun};
use run_probes::Probe;
use std::alloc::{AllocError, Global};
use std::marker::Model;

/// The run of a layout's compiled image under the history of a feed, at power-on, with all the memory that it takes. A
/// clause sees what is run.
#[derive(Drop)]
pub struct Engine<F: Feed> {
    run: ReadyRun<F>,
    starts: Starts,
}

impl<F: Feed> Model for Engine<F> {
    ghost use Rattle.joint_feed.specs.Stories.{Story};
    ghost use Rattle.subsystem.specs.Progress.{IsPrepared};

    ghost Value = { Story };

    ghost view = { λ e. e.run };

    ghost invariant = { λ e. IsPrepared e.run e.starts };
}

impl<F: Feed> Engine<F> {
    /// The run of the image that `compile` gives for a layout, under the history of a feed of which nothing was taken and
    /// which is accepted for this layout. Takes all memory that the run takes: the buffer of INT 09h, and room for each
    /// tick start. If memory runs out the feed is given up.
    pub fn new(alloc: Global, layout: &Layout, feed: F) -> Result<Engine<F>, AllocError>
        requires no_edge { (F.feeds feed).edges ≡ 0 }
        requires no_host { (F.feeds feed).host ≡ 0 }
        requires accepted { IsAcceptedFor layout.now (F.feeds feed).history }
        ensures layout { IsKeyLayout layout.now }
        ensures engine { IfOk result (λ engine. engine ≡ story (image_of layout.now) (F.feeds feed).history) }
        ensures accepted { IfOk result (λ engine. IsAccepted (history_of engine)) }
    {
        run_and_model_agree();
        let most = (feed.end() + TICK_CYCLES - 1) / TICK_CYCLES + 1;
        let run = ReadyRun::of_layout(alloc, layout, feed)?;
        let stamps = Vec::with_capacity(alloc, most as usize)?;
        Ok(Engine {
            run,
            starts: Starts { stamps },
        })
    }

    /// Makes the joint run from power-on to the first tick start at or after the end stamp, before the step that begins
    /// there, and takes no memory. After each step each probe looks at the state that it led to, and then each line of the
    /// log that arose in the step is put, whole and alone.
    ///
    /// On Ok the sink has taken the whole text of the log, which is the one that the model expects for the layout, its
    /// count of faults is as it was, and the probes have looked at each state. A failure comes only if a put failed. A sink
    /// that shows what it took has the text of the whole log up to that put, and the probes have looked at the states up to
    /// the one of the step that said the line.
    pub fn run_to<K: Sink>(
        self,
        out: &mut K,
        probes: &mut Vec<Box<dyn Probe>>,
    ) -> Result<Ended, SinkFault>
        requires accepted { IsAccepted (history_of self) }
        ensures run { IfOk result (λ ended. IsOutcome self (ending self ended)) }
        ensures said { IfOk result (λ ended. IsSaid (K.shown out.old) (K.shown out.new)
            (log_text (ending self ended).log)) }
        ensures counts { IfOk result (λ ended. ended.counts ≡ with_lines none_counted (ending self ended).log) }
        ensures agrees { IfOk result (λ ended. (layout : KeyLayout) → IsKeyLayout layout → IsAcceptedFor layout (history_of self)
            → self.bytes ≡ image_of layout → IsAsExpected layout (history_of self) (ending self ended)) }
        ensures cadence { IfOk result (λ ended. KeepsCadenceTo (listed ended.starts.items) (length ended.starts.items - 1)) }
        ensures broken { OnErr result (IsLogBrokenOff self (K.shown out.old) (K.shown out.new)) }
        ensures looked { let before = map (λ b. watch b) probes.old.items in
            IfOk result (λ ended. map (λ b. watch b) probes.new.items ≡ looks self ended.steps before) }
        ensures looked_so_far { HaveLookedAtSome self (map (λ b. watch b) probes.old.items) (map (λ b. watch b) probes.new.items) }
        ensures looked_to_break { OnErr result (HaveLookedToBreak self (K.shown out.old)
            (K.shown out.new) (map (λ b. watch b) probes.old.items) (map (λ b. watch b) probes.new.items)) }
    {
        runs_are_expected();
        let mut putting = Putting {
            starts: self.starts,
            counts: Counts::none(),
        };
        let made = self
            .run
            .make::<K, SinkFault, Putting, 9>(Ending::TickStart, &mut putting, out, probes)?;
        Ok(Ended {
            starts: putting.starts.stamps,
            end: copied(made.mcu()),
            steps: made.steps(),
            cycles: made.cycles(),
            counts: putting.counts,
        })
    }
}
