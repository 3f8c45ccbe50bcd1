//! A probe, whichever it is.

ghost use Rattle.std.specs.Prelude.{◌≡◌, true, map};
ghost use Rattle.run_probes.specs.Probes.{Watch, meets, looked, armed, first_met, or_met, sight_of};
ghost use Rattle.run_probes.specs.Resting.{rests};
ghost use Rattle.run_probes.specs.Tallies.{first_fits};

use crate::tally::Tally;
use joint_run::Joint;

/// Something that looks at the state after each step of a run, with its cycle and the wires, and counts the steps that
/// meet what it is armed with.
pub trait Probe: Drop {
    ghost watch: { Self → Watch };

    /// Arms the probe, which counts anew. What `a` and `b` stand for is up to its kind. What it has heard stays.
    fn arm(&mut self, a: u16, b: u8)
        ensures armed { watch self.new ≡ armed a b (watch self.old) };

    /// Looks at the state that the step of this number led to: answers whether it meets the probe's arms, and counts it
    /// if so. A probe that was never armed is never met. A count at the greatest value stays there. A probe that listens
    /// to the wires hears them, armed or not, unless the cycle isn't greater than at its last sample: then it hears and
    /// counts nothing.
    fn look(&mut self, step: u64, joint: &Joint) -> bool
        ensures looked { watch self.new ≡ looked step (sight_of joint.now) (watch self.old) }
        ensures hit { result ≡ meets (sight_of joint.now) (watch self.old) };

    /// Whether it rests while the clock has this level: it isn't armed, and if it listens to the wires the clock had this
    /// level at the last sample that it heard. Then it needn't look at states in which the clock has this level, as long as
    /// it looks at a later one.
    fn rests(&self, clk: bool) -> bool
        ensures rests { result ≡ rests clk (watch self.now) };

    /// How many steps it counted, and the first of them; none exactly if it counted none.
    fn tell(&self) -> Tally
        ensures count { result.count ≡ (watch self.now).counted.count }
        ensures first { result.first ≡ (watch self.now).counted.first }
        ensures none { first_fits result.count result.first ≡ true };
}

/// One of them looks.
fn look_one(probe: &mut Box<dyn Probe>, step: u64, joint: &Joint) -> bool
    ensures looked { watch probe.new ≡ looked step (sight_of joint.now) (watch probe.old) }
    ensures hit { result ≡ meets (sight_of joint.now) (watch probe.old) }
{
    probe.look(step, joint)
}

/// The number of the first probe that was met, with one more that was looked at after it.
fn or_met(hit: Option<usize>, met: bool, number: usize) -> Option<usize>
    ensures { result ≡ or_met hit met number }
{
    match hit {
        Some(first) => Some(first),
        None if met => Some(number),
        None => None,
    }
}

/// Each of them looks once, in their order, at the state that the step of this number led to. Answers the number of the
/// first, from 0, that it meets, if it meets one.
pub fn look_all(probes: &mut Vec<Box<dyn Probe>>, step: u64, joint: &Joint) -> Option<usize>
    ensures looked { map (λ b. watch b) probes.new.items
        ≡ map (λ b. looked step (sight_of joint.now) (watch b)) probes.old.items }
    ensures hit { result ≡ first_met 0 (sight_of joint.now) (map (λ b. watch b) probes.old.items) }
{
    let mut hit = None;
    let mut number = 0;
    for probe in probes.iter_mut() {
        let met = look_one(probe, step, joint);
        hit = or_met(hit, met, number);
        number += 1;
    }
    hit
}
