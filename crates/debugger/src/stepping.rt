//! Steps of a session, after each of which the probes look.

ghost use Rattle.std.specs.Prelude.{◌≡◌, ◌<◌, map};
ghost use Rattle.debugger.specs.Sessions.{debug, walk, hunt};
ghost use Rattle.debugger.specs.Making.{IsMade};

use crate::session::Session;
use run_probes::{Probe, all_rest, look_all};

/// What came of some steps more: how many were made, none if the run has ended; and of the probes that the last of them
/// hit the first, counted from 0.
#[derive(Clone, Copy, Drop)]
pub(crate) struct Made {
    pub(crate) steps: u64,
    pub(crate) hit: Option<usize>,
}

impl Session {
    /// Makes steps, if the run goes on, at most `left`, of which only the last can hit a probe; then each probe looks. While
    /// all of them rest that comes to the same as a look after each step.
    pub(crate) fn make(&mut self, left: u64, probes: &mut Vec<Box<dyn Probe>>) -> Made
        requires some { 0 < left }
        ensures debuggee { self.new.debuggee ≡ self.old.debuggee }
        ensures made { let before = map (λ b. watch b) probes.old.items in
            IsMade self.old.debuggee left (debug self.old before) result (debug self.new (map (λ b. watch b) probes.new.items)) }
    {
        let first = self.steps();
        let rest = all_rest(probes, self.joint().lines().clk);
        self.advance(left, rest);
        let steps = self.steps();
        if steps == first {
            return Made {
                steps: 0,
                hit: None,
            };
        }
        let hit = look_all(probes, steps, self.joint());
        Made {
            steps: steps - first,
            hit,
        }
    }

    /// Makes so many steps, or as many as the run still has.
    pub(crate) fn walk(&mut self, count: u32, probes: &mut Vec<Box<dyn Probe>>)
        ensures debuggee { self.new.debuggee ≡ self.old.debuggee }
        ensures walked { let before = debug self.old (map (λ b. watch b) probes.old.items) in
            debug self.new (map (λ b. watch b) probes.new.items) ≡ walk self.old.debuggee count before }
    {
        let mut left = u64::from(count);
        'steps: while left > 0 {
            let made = self.make(left, probes);
            if made.steps == 0 {
                return;
            }
            left -= made.steps;
        }
    }

    /// The same, but stops after the first step that hits a probe. Answers the first of those that it hit.
    pub(crate) fn hunt(&mut self, count: u32, probes: &mut Vec<Box<dyn Probe>>) -> Option<usize>
        ensures debuggee { self.new.debuggee ≡ self.old.debuggee }
        ensures hunted { let before = debug self.old (map (λ b. watch b) probes.old.items) in
            (hunt self.old.debuggee count before).debug ≡ debug self.new (map (λ b. watch b) probes.new.items) }
        ensures hit { let before = debug self.old (map (λ b. watch b) probes.old.items) in
            (hunt self.old.debuggee count before).hit ≡ result }
    {
        let mut left = u64::from(count);
        'steps: while left > 0 {
            let made = self.make(left, probes);
            if made.steps == 0 {
                return made.hit;
            }
            if made.hit.is_some() {
                return made.hit;
            }
            left -= made.steps;
        }
        None
    }
}
