//! The certified places.

ghost use Rattle.std.specs.Prelude.{◌≡◌, ℕ, ◌<◌, ◌++◌, ◌∷◌, [], Some, None, All, IfOk, OnOk, OnErr};
ghost use Rattle.cycle_cert.specs.declared.bound.Bound.{Bound};
ghost use Rattle.cycle_cert.specs.Certificates.{bound_in};
ghost use Rattle.cycle_cert.specs.Tables.{IsWithin};

use crate::bound::Bound;
use mcs48_isa::PLACES;
use std::alloc::{AllocError, Global};
use std::marker::Model;

/// A certified place, 0 to 2,047, with its bound, and the line that gives it, counted from 1.
#[derive(Clone, Copy, Drop)]
pub(crate) struct Entry {
    pub(crate) line: u32,
    pub(crate) place: u16,
    pub(crate) bound: Bound,
}

/// The certified places in the order of their lines, none of them twice. It finds a place's bound at once.
#[derive(Drop)]
pub(crate) struct Table {
    entries: Vec<Entry>,
    bounds: Vec<Option<Bound>>,
}

impl Model for Table {
    ghost use Rattle.std.specs.Prelude.{List};
    ghost use Rattle.cycle_cert.specs.declared.certificate.Entry.{Entry};
    ghost use Rattle.cycle_cert.specs.Tables.{IsTable};

    ghost Value = { List Entry };

    ghost view = { λ table. table.entries.items };

    ghost invariant = { λ table. IsTable table.entries.items table.bounds.items };
}

impl Table {
    /// No place is certified.
    pub(crate) fn new(alloc: Global) -> Result<Table, AllocError>
        ensures { IfOk result (λ table. table ≡ []) }
    {
        Ok(Table {
            entries: Vec::new(alloc),
            bounds: vec![in alloc; None; PLACES]?,
        })
    }

    /// The certified places in the order of their lines. The registers of their bounds are numbered 0 to 7.
    pub(crate) fn entries(&self) -> &[Entry]
        ensures entries { result.now ≡ self.now }
        ensures within { All IsWithin result.now }
        ensures registers { (place : ℕ) (bound : Bound) → bound_in self.now place ≡ Some bound → bound.register < 8 }
    {
        self.entries.as_slice()
    }

    /// The bound of a place, if it is certified.
    pub(crate) fn bound_in(&self, place: u16) -> Option<Bound>
        requires { place < 2048 }
        ensures { result ≡ bound_in self.now place }
    {
        self.bounds[usize::from(place)]
    }

    /// Adds a place that isn't certified yet.
    pub(crate) fn add(&mut self, entry: Entry) -> Result<(), AllocError>
        requires within { entry.place < 2048 }
        requires register { entry.bound.register < 8 }
        requires fresh { bound_in self.old entry.place ≡ None }
        ensures ok { OnOk result (self.new ≡ self.old ++ entry ∷ []) }
        ensures err { OnErr result (self.new ≡ self.old) }
    {
        self.entries.push(entry)?;
        self.bounds[usize::from(entry.place)] = Some(entry.bound);
        Ok(())
    }
}
