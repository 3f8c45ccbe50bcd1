//! The bound of a place.

ghost use Rattle.std.specs.Prelude.{◌≡◌, ◌^◌, ◌*◌, ◌≤◌, ◌<◌};
ghost use Rattle.cycle_cert.specs.Bounds.{weight, cycles_at, most_cycles};

/// At most `fixed + factor * w` machine cycles to the target, w the weight of bank 0's register with this number, 0 to
/// 7. A bound without a register has the factor 0.
#[derive(Clone, Copy, Drop)]
pub(crate) struct Bound {
    pub(crate) fixed: u32,
    pub(crate) factor: u32,
    pub(crate) register: u8,
}

/// The weight of a register's value: a counting loop makes 256 turns from 00.
fn weight(value: u8) -> u16
    ensures weight { result ≡ weight value }
    ensures small { result ≤ 256 }
{
    if value == 0 { 256 } else { value as u16 }
}

/// A number of at most 32 bits as often as a weight says.
fn times(factor: u32, weight: u16) -> u64
    requires { weight ≤ 256 }
    ensures product { result ≡ factor * weight }
    ensures small { result < 2 ^ 41 }
{
    u64::from(factor) * u64::from(weight)
}

impl Bound {
    /// The bound at the target, if nothing is left.
    pub(crate) const NOTHING_LEFT: Bound = Bound {
        fixed: 0,
        factor: 0,
        register: 0,
    };

    /// The bound in machine cycles if its register has this value.
    pub(crate) fn cycles_at(&self, value: u8) -> u64
        ensures cycles { result ≡ cycles_at self.now value }
        ensures small { result < 2 ^ 42 }
    {
        u64::from(self.fixed) + times(self.factor, weight(value))
    }

    /// The greatest value that the bound takes, in machine cycles.
    pub(crate) fn most_cycles(&self) -> u64
        ensures { result ≡ most_cycles self.now }
    {
        self.cycles_at(0)
    }
}
