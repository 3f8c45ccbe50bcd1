//! A run at power-on, and how it is made.

ghost use Rattle.std.specs.Prelude.{◌≡◌, map, IfOk, OnErr};
ghost use Rattle.fw_compile.specs.Image.{image_of};
ghost use Rattle.joint_feed.specs.Filled.{filled_story};
ghost use Rattle.joint_feed.specs.Stories.{Story, story};
ghost use Rattle.key_file.specs.Accepted.{IsAccepted, IsAcceptedFor};
ghost use Rattle.key_file.specs.Feeds.{Fed};
ghost use Rattle.layout_reader.specs.Layouts.{IsKeyLayout};
ghost use Rattle.run_loop.specs.Finished.{IsFinished};
ghost use Rattle.run_loop.specs.Gliding.{IsTimely};
ghost use Rattle.run_loop.specs.Looking.{BrokeOff, HaveLookedAtSome};
ghost use Rattle.run_loop.specs.Reports.{IsReportedTo};
ghost use Rattle.run_probes.specs.Looks.{looks};

use crate::ending::{End, Ending, Halt, is_over};
use crate::finished::Finished;
use crate::gliding::glide;
use crate::reporting::Reporter;
use fw_compile::compile;
use int09::Bios;
use joint_feed::Course;
use key_file::Feed;
use layout_reader::Layout;
use mcs48_isa::Image;
use run_probes::Probe;
use std::alloc::{AllocError, Global};
use std::marker::Model;

/// The run of a program on the board under the history of a feed, at power-on, with all the memory that it takes. A
/// clause sees what is run.
#[derive(Drop)]
pub struct ReadyRun<F: Feed> {
    feed: F,
    course: Course,
}

impl<F: Feed> Model for ReadyRun<F> {
    ghost use Rattle.joint_feed.specs.Filled.{run_of};
    ghost use Rattle.joint_feed.specs.Stories.{Story};
    ghost use Rattle.run_loop.specs.Ready.{IsReady};

    ghost Value = { Story };

    ghost view = { λ r. run_of r.course (F.feeds r.feed).history };

    ghost invariant = { λ r. IsReady (run_of r.course (F.feeds r.feed).history) (F.feeds r.feed) r.course };
}

impl<F: Feed> ReadyRun<F> {
    /// The run of a program, as it is, in a part whose data memory, A and T hold this byte at power-on, under the history of
    /// a feed of which nothing was taken and which is accepted. Takes all memory that the run takes, the buffer of INT 09h.
    /// If memory runs out the feed is given up.
    pub fn of_program(
        alloc: Global,
        image: &Image,
        fill: u8,
        feed: F,
    ) -> Result<ReadyRun<F>, AllocError>
        requires no_edge { (F.feeds feed).edges ≡ 0 }
        requires no_host { (F.feeds feed).host ≡ 0 }
        requires accepted { IsAccepted (F.feeds feed).history }
        ensures run { IfOk result (λ run. run ≡ filled_story fill image.now.bytes (F.feeds feed).history) }
    {
        let bios = Bios::new(alloc)?;
        let mut feed = feed;
        let course = Course::begin_filled(image, bios, fill, &mut feed);
        Ok(ReadyRun { feed, course })
    }

    /// The run of the image that `compile` gives for a layout, with cleared memory, under the history of a feed of which
    /// nothing was taken and which is accepted for this layout. Takes the same memory.
    pub fn of_layout(alloc: Global, layout: &Layout, feed: F) -> Result<ReadyRun<F>, AllocError>
        requires no_edge { (F.feeds feed).edges ≡ 0 }
        requires no_host { (F.feeds feed).host ≡ 0 }
        requires accepted { IsAcceptedFor layout.now (F.feeds feed).history }
        ensures layout { IsKeyLayout layout.now }
        ensures run { IfOk result (λ run. run ≡ story (image_of layout.now) (F.feeds feed).history) }
    {
        let _ = layout.rate();
        let _ = layout.entries();
        ReadyRun::of_program(alloc, &compile(layout), 0, feed)
    }

    /// Makes the run from power-on to its end, and takes no memory. After each step each probe looks, and then what is to be
    /// reported of the step is reported. A run that ends at a tick start is one that keeps its time, as its caller knows by
    /// a law. `SITE`, from 4, is a number that no other place of the program gives.
    #[inline(always)]
    pub fn make<O, E, T: Reporter<O, E>, const SITE: u8>(
        self,
        ending: Ending,
        reporter: &mut T,
        out: &mut O,
        probes: &mut Vec<Box<dyn Probe>>,
    ) -> Result<Finished, E>
        requires timely { IsTimely ending self }
        requires reported { T.has_reported ending self out.old 0 reporter.old out.old }
        ensures finished { IfOk result (λ run. IsFinished ending self run) }
        ensures reported { IfOk result (λ run. IsReportedTo ending T.WIRES self
            (λ k. T.has_reported ending self out.old k reporter.new out.new) run.joint.steps) }
        ensures looked { let before = map (λ b. watch b) probes.old.items in
            IfOk result (λ run. map (λ b. watch b) probes.new.items ≡ looks self run.joint.steps before) }
        ensures looked_so_far { HaveLookedAtSome ending self
            (map (λ b. watch b) probes.old.items) (map (λ b. watch b) probes.new.items) }
        ensures broken { OnErr result (BrokeOff ending self (λ k. T.is_broken ending self out.old k out.new)
            (map (λ b. watch b) probes.old.items) (map (λ b. watch b) probes.new.items)) }
    {
        let mut feed = self.feed;
        let mut course = self.course;
        let stop = feed.end();
        let halt = Halt {
            ending,
            stop,
            wires: T::WIRES,
        };
        'steps: while !is_over(ending, &course.joint, stop) {
            match glide::<SITE>(&mut course, halt, probes) {
                Err(stuck) => {
                    return Ok(Finished {
                        end: End::Stuck(stuck),
                        joint: course.joint,
                    });
                }
                Ok(()) => {}
            }
            course.ahead.count(&mut feed, &course.seen);
            match reporter.report(out, &course) {
                Err(fault) => return Err(fault),
                Ok(()) => {}
            }
        }
        Ok(Finished {
            end: End::Reached,
            joint: course.joint,
        })
    }
}
