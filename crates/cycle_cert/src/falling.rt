//! Whether the bound falls on a way out of a row.

ghost use Rattle.std.specs.Prelude.{◌≡◌};
ghost use Rattle.std.specs.List.{list_all};
ghost use Rattle.cycle_cert.specs.Bounds.{byte_values};
ghost use Rattle.cycle_cert.specs.Falling.{is_open, falls_at, lightest, falls};

use crate::bound::Bound;
use crate::rows::{When, heaviest};
use mcs48_isa::Op;

/// A way out of a row with the bounds at its ends: the row's operation and machine cycles, when the way is taken, and
/// the bounds before and after.
#[derive(Clone, Copy, Drop)]
pub(crate) struct Passage {
    pub(crate) op: Op,
    pub(crate) cycles: u8,
    pub(crate) when: When,
    pub(crate) before: Bound,
    pub(crate) after: Bound,
}

impl Passage {
    /// Whether the way can be taken if the registers of the two bounds have these values before the row.
    fn is_open(&self, first: u8, second: u8) -> bool
        ensures { result ≡ is_open self.now first second }
    {
        self.when.fits(self.before.register, first) && self.when.fits(self.after.register, second)
    }

    /// Whether the bound falls by the row's cycles at least, if these are the values before the row of the register
    /// of the bound before and of the register of the bound after.
    fn falls_at(&self, first: u8, second: u8) -> bool
        ensures { result ≡ falls_at self.now first second }
    {
        if !self.is_open(first, second) {
            return true;
        }
        let left = heaviest(self.op, self.after.register, second);
        self.after.cycles_at(left) + u64::from(self.cycles) <= self.before.cycles_at(first)
    }

    /// The value of the register of the bound before at which that bound is least, of those with which the way can be
    /// taken.
    fn lightest(&self) -> u8
        ensures { result ≡ lightest self.now }
    {
        match self.when {
            When::NotAtOne(counter) if counter == self.before.register => 2,
            _ => 1,
        }
    }

    /// Whether the bound falls if both registers are one, at all its values.
    fn falls_on_one(&self) -> bool
        ensures { result ≡ list_all (λ value. falls_at self.now value value) byte_values }
    {
        for value in 0..256u16 {
            if !self.falls_at(value as u8, value as u8) {
                return false;
            }
        }
        true
    }

    /// Whether the bound falls at this value of the register of the bound before, at all values of the other.
    fn falls_beside(&self, first: u8) -> bool
        ensures { result ≡ list_all (falls_at self.now first) byte_values }
    {
        for value in 0..256u16 {
            if !self.falls_at(first, value as u8) {
                return false;
            }
        }
        true
    }

    /// Whether the bound falls by the row's cycles at least, at all values of both registers.
    pub(crate) fn falls(&self) -> bool
        ensures { result ≡ falls self.now }
    {
        if self.before.register == self.after.register {
            self.falls_on_one()
        } else {
            self.falls_beside(self.lightest())
        }
    }
}
