//! A probe of a list, by its number.

ghost use Rattle.std.specs.Prelude.{◌≡◌, ℕ, ◌<◌, length, map, slice_get};
ghost use Rattle.std.specs.List.{remove};
ghost use Rattle.run_probes.specs.Probes.{armed};
ghost use Rattle.debugger.specs.Effects.{arm_at, tally_shown, tally_text};

use run_probes::{Probe, Tally};

/// It is armed.
fn arm_one(probe: &mut Box<dyn Probe>, a: u16, b: u8)
    ensures { watch probe.new ≡ armed a b (watch probe.old) }
{
    probe.arm(a, b);
}

/// What it counted.
fn report_one(probe: &Box<dyn Probe>) -> Tally
    ensures count { result.count ≡ (watch probe.now).counted.count }
    ensures first { result.first ≡ (watch probe.now).counted.first }
{
    probe.tell()
}

/// Arms the probe of this number.
pub(crate) fn arm_at(probes: &mut Vec<Box<dyn Probe>>, probe: usize, a: u16, b: u8)
    requires { probe < length probes.old.items }
    ensures { map (λ b. watch b) probes.new.items ≡ arm_at probe a b (map (λ b. watch b) probes.old.items) }
{
    arm_one(&mut probes[probe], a, b);
}

/// What the probe of this number counted.
pub(crate) fn tally_at(probes: &Vec<Box<dyn Probe>>, probe: usize) -> Tally
    requires { probe < length probes.now.items }
    ensures { let watches = map (λ b. watch b) probes.now.items in
        (n : ℕ) → tally_shown n (slice_get watches probe) ≡ tally_text n result.count result.first }
{
    report_one(&probes[probe])
}

/// Drops the probe of this number; those after it move down by one.
pub(crate) fn drop_at(probes: &mut Vec<Box<dyn Probe>>, probe: usize)
    requires { probe < length probes.old.items }
    ensures { map (λ b. watch b) probes.new.items ≡ remove (map (λ b. watch b) probes.old.items) probe }
{
    let _ = probes.remove(probe);
}
