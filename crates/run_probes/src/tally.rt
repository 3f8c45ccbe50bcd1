//! What a probe counts.

ghost use Rattle.std.specs.Prelude.{◌≡◌, true, is_none};
ghost use Rattle.run_probes.specs.Tallies.{first_fits, unarmed, armed, noted};

use std::marker::Model;

/// What a probe is armed with: an address, a register or a place, and a value.
#[derive(Clone, Copy, Drop)]
pub struct Arms {
    pub a: u16,
    pub b: u8,
}

/// How many steps hit since a probe was last armed, and the number of the first of them, None if none did.
#[derive(Clone, Copy, Debug, PartialEq, Eq, Drop)]
pub struct Tally {
    pub count: u64,
    pub first: Option<u64>,
}

impl Tally {
    /// No step hit.
    const NONE: Tally = Tally {
        count: 0,
        first: None,
    };
}

/// The arms of a probe, whichever its kind, and what it counted.
#[derive(Drop)]
pub(crate) struct Counter {
    arms: Option<Arms>,
    tally: Tally,
}

impl Model for Counter {
    ghost use Rattle.std.specs.Prelude.{◌≡◌, true};
    ghost use Rattle.run_probes.specs.Tallies.{Counted, first_fits};

    ghost Value = { Counted };

    ghost view = { λ c. record { arms = c.arms; count = c.tally.count; first = c.tally.first } };

    ghost invariant = { λ c. first_fits c.tally.count c.tally.first ≡ true };
}

impl Counter {
    /// Nothing was armed yet.
    pub(crate) fn new() -> Counter
        ensures { result ≡ unarmed }
    {
        Counter {
            arms: None,
            tally: Tally::NONE,
        }
    }

    /// What was armed, if anything was.
    pub(crate) fn arms(&self) -> Option<Arms>
        ensures { result ≡ self.now.arms }
    {
        self.arms
    }

    /// Whether nothing was armed.
    pub(crate) fn is_unarmed(&self) -> bool
        ensures { result ≡ is_none self.now.arms }
    {
        self.arms.is_none()
    }

    /// Is armed, and counts anew.
    pub(crate) fn arm(&mut self, a: u16, b: u8)
        ensures { self.new ≡ armed a b }
    {
        self.arms = Some(Arms { a, b });
        self.tally = Tally::NONE;
    }

    /// The step of this number led to a state that meets the arms or not.
    pub(crate) fn note(&mut self, step: u64, met: bool)
        ensures { self.new ≡ noted step met self.old }
    {
        if met {
            self.tally.count = self.tally.count.saturating_add(1);
            self.tally.first = self.tally.first.or(Some(step));
        }
    }

    /// What was counted since it was armed.
    pub(crate) fn tally(&self) -> Tally
        ensures count { result.count ≡ self.now.count }
        ensures first { result.first ≡ self.now.first }
        ensures none { first_fits result.count result.first ≡ true }
    {
        self.tally
    }
}
