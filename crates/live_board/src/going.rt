//! A run: steps, up to one that does what it is to stop for.

ghost use Rattle.std.specs.Prelude.{◌≡◌, ◌≤◌, ◌<◌, ◌^◌, ◌+◌, ◌-◌, ◌++◌, ◌⊎◌, suc, drop, map, min, true, false};
ghost use Rattle.std.specs.Prelude.{IfSome, MatchOption, None, OnErr, OnOk};
ghost use Rattle.joint_glide.specs.Uneventful.{HasGone};
ghost use Rattle.joint_run.specs.Due.{with_seen};
ghost use Rattle.live_board.specs.Heard.{heard_all, rise, said_so};
ghost use Rattle.live_board.specs.Onward.{RunsOn};
ghost use Rattle.live_board.specs.Passing.{at_fall, passed_by};
ghost use Rattle.live_board.specs.Rising.{irq_of};
ghost use Rattle.live_board.specs.Running.{at_rise, met_by};

use crate::irq::Irq;
use crate::parts::{LAST_CYCLE, Parts};
use crate::ran::{Ran, RunEnd};
use crate::stops::{Met, Stops, counter_met, item_met, wires_met};
use board_terms::Lines;
use joint_glide::{NOWHERE, go_on};
use mcs48_core::Stuck;

/// In how many cycles quiet steps may be made: in none if the run is to stop at a place of the program, and else in as
/// many as leave the step after them within both limits, and its begin before the count's end.
#[inline(always)]
fn quiet_room(stops: &Stops, cycles: u64, steps: Option<u64>, made: u64, cycle: u64) -> u64
    requires cycles { 0 < cycles }
    requires steps { IfSome steps (λ most. made < most) }
    requires near { cycle < 2 ^ 62 }
    ensures within { result < cycles }
    ensures few { IfSome steps (λ most. made + result < most) }
    ensures near { cycle + result < 2 ^ 62 }
    ensures alone { (result ≡ 0) ⊎ (stops.now.counter ≡ None) }
    ensures most { stops.now.counter ≡ None → MatchOption steps (suc result ≡ min cycles (2 ^ 62 - cycle))
        (λ most. suc result ≡ min (min cycles (2 ^ 62 - cycle)) (most - made)) }
{
    let soon = cycles.min(LAST_CYCLE - cycle);
    match (stops.counter, steps) {
        (Some(_), _) => 0,
        (None, None) => soon - 1,
        (None, Some(most)) => soon.min(most - made) - 1,
    }
}

/// Whether as many steps were made as there may be.
#[inline(always)]
fn is_full(made: u64, steps: Option<u64>) -> bool
    ensures full { result ≡ true → MatchOption steps ⊥ (λ most. most ≤ made) }
    ensures room { result ≡ false → IfSome steps (λ most. made < most) }
{
    match steps {
        Some(most) => made >= most,
        None => false,
    }
}

impl Parts {
    /// Joint steps by the events that wait: quiet ones, in at most `most` cycles together, and then one of any kind, which
    /// is reported in `seen`. If the processor is stuck the steps before count.
    #[inline(always)]
    fn glide(&mut self, most: u64, was: Irq) -> Result<(), Stuck>
        requires near { self.old.joint.cycle + most < 2 ^ 62 }
        requires few { self.old.rises < 2 ^ 63 }
        ensures gone { HasGone self.old.due 2048 most self.old.joint (with_seen result self.new.seen) self.new.joint }
        ensures edges { OnOk result (self.new.due.edges.items ≡ drop self.new.seen.edges self.old.due.edges.items) }
        ensures host { self.new.due.host ≡ self.old.due.host }
        ensures kept { OnOk result (self.new.heard ≡ heard_all self.old.heard
            (passed_by (at_fall self.old.joint.outside) (self.new.joint.cycle - self.new.seen.cycles) self.new.joint.outside.clock
            ++ map said_so self.new.seen.items.items)) }
        ensures risen { OnOk result (self.new.rises ≡ self.old.rises + rise was (irq_of self.new.joint.outside.desk.port)) }
        ensures unchanged { OnErr result (self.new.due ≡ self.old.due) }
        ensures log_unchanged { OnErr result ((self.new.heard ≡ self.old.heard) × (self.new.rises ≡ self.old.rises)) }
    {
        let at_fall = self.at_fall();
        go_on(&mut self.joint, &self.due, &mut self.seen, NOWHERE, most)?;
        self.end_step(was, at_fall);
        Ok(())
    }

    /// What the last step did of what is asked for, before which the line and the wires were so.
    #[inline(always)]
    fn met(&self, stops: &Stops, was: Irq, lines: Lines) -> Met
        ensures { result ≡ met_by stops.now was lines self.now }
    {
        Met {
            rise: stops.rise && was.rises_to(self.irq()),
            item: stops.item && item_met(self.seen.items.as_slice()),
            wires: stops.wires && wires_met(lines, self.joint.lines()),
            counter: counter_met(stops.counter, self.joint.mcu().pc),
        }
    }

    /// Goes on until so many cycles have passed, or as many steps were made as there may be, or a step did what it is to
    /// stop for.
    #[inline(always)]
    fn go_to(&mut self, stops: &Stops, cycles: u64, steps: Option<u64>) -> RunEnd
        ensures later { self.old.joint.cycle ≤ self.new.joint.cycle }
        ensures onward { RunsOn stops.now self.old cycles steps result self.new }
    {
        let start = self.joint.cycle();
        let first = self.joint.steps();
        let mut was = self.irq();
        self.rises = 0;
        'going: while self.joint.cycle() - start < cycles {
            let cycle = self.joint.cycle();
            let made = self.joint.steps() - first;
            if is_full(made, steps) {
                return RunEnd::Passed;
            }
            if cycle >= LAST_CYCLE {
                return RunEnd::LastCycle;
            }
            let lines = self.joint.lines();
            let most = quiet_room(stops, cycles - (cycle - start), steps, made, cycle);
            match self.glide(most, was) {
                Err(stuck) => return RunEnd::Stuck(stuck),
                Ok(()) => {}
            }
            let met = self.met(stops, was, lines);
            if met.is_any() {
                return RunEnd::Met(met);
            }
            was = self.irq();
        }
        RunEnd::Passed
    }

    /// The same, and how many cycles passed.
    #[inline(always)]
    pub(crate) fn run_to(&mut self, stops: &Stops, cycles: u64, steps: Option<u64>) -> Ran
        ensures cycles { self.old.joint.cycle + result.cycles ≡ self.new.joint.cycle }
        ensures onward { RunsOn stops.now self.old cycles steps result.end self.new }
    {
        let start = self.joint.cycle();
        let end = self.go_to(stops, cycles, steps);
        Ran {
            cycles: self.joint.cycle() - start,
            end,
        }
    }

    /// The same without a limit of steps, and for a rise of the interrupt line alone, if it is watched.
    pub(crate) fn run(&mut self, cycles: u64, watched: bool) -> Ran
        ensures cycles { self.old.joint.cycle + result.cycles ≡ self.new.joint.cycle }
        ensures onward { RunsOn (at_rise watched) self.old cycles None result.end self.new }
    {
        self.run_to(&Stops::at_rise(watched), cycles, None)
    }
}
