//! Whether probes rest.

ghost use Rattle.std.specs.Prelude.{◌≡◌, map};
ghost use Rattle.run_probes.specs.Resting.{rests, all_rest};

use crate::probe::Probe;

/// Whether one of them rests.
fn one_rests(probe: &Box<dyn Probe>, clk: bool) -> bool
    ensures { result ≡ rests clk (watch probe.now) }
{
    probe.rests(clk)
}

/// Whether these rest.
fn rest(probes: &[Box<dyn Probe>], clk: bool) -> bool
    ensures { result ≡ all_rest clk (map (λ b. watch b) probes.now) }
{
    match probes {
        [] => true,
        [probe, others @ ..] => one_rests(probe, clk) && rest(others, clk),
    }
}

/// Whether each of them rests while the clock has this level. Then none needs to look at states in which it has, as long as
/// each looks at a later one.
pub fn all_rest(probes: &Vec<Box<dyn Probe>>, clk: bool) -> bool
    ensures { result ≡ all_rest clk (map (λ b. watch b) probes.now.items) }
{
    rest(probes.as_slice(), clk)
}
