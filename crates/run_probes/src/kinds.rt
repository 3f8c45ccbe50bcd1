//! The three kinds of probes that look at the processor.

ghost use Rattle.std.specs.Prelude.{◌≡◌, ◌<◌, false, Some, None};
ghost use Rattle.mcs48_core.specs.Registers.{register};
ghost use Rattle.run_probes.specs.Probes.{met_by, met_if, address_kind, register_kind, cell_kind, seen_as, unarmed};

use crate::probe::Probe;
use crate::tally::{Arms, Counter, Tally};
use joint_run::Joint;
use mcs48_core::Mcu;

/// A probe that is hit if the program counter is `a`.
#[derive(Drop)]
pub struct AddressProbe {
    counter: Counter,
}

/// A probe that is hit if register `a`, 0 to 7, of the selected bank is `b`.
#[derive(Drop)]
pub struct RegisterProbe {
    counter: Counter,
}

/// A probe that is hit if place `a`, 0 to 127, of data memory is `b`.
#[derive(Drop)]
pub struct CellProbe {
    counter: Counter,
}

/// Whether the program counter is where these arms say.
fn is_at(arms: Option<Arms>, mcu: &Mcu) -> bool
    ensures { result ≡ met_if address_kind arms mcu.now }
{
    match arms {
        None => false,
        Some(arms) => mcu.pc == arms.a,
    }
}

/// Whether the register of these arms has their value. It is out of line, so that a look without arms is short.
#[inline(never)]
fn holds_register(arms: Arms, mcu: &Mcu) -> bool
    ensures { result ≡ met_by register_kind arms mcu.now }
{
    arms.a < 8 && mcu.register(arms.a as u8) == arms.b
}

/// The same if there are arms.
fn has_register(arms: Option<Arms>, mcu: &Mcu) -> bool
    ensures { result ≡ met_if register_kind arms mcu.now }
{
    match arms {
        None => false,
        Some(arms) => holds_register(arms, mcu),
    }
}

/// Whether the place of these arms has their value. It is out of line as well.
#[inline(never)]
fn holds_cell(arms: Arms, mcu: &Mcu) -> bool
    ensures { result ≡ met_by cell_kind arms mcu.now }
{
    arms.a < 128 && mcu.ram[arms.a as usize] == arms.b
}

/// The same if there are arms.
fn has_cell(arms: Option<Arms>, mcu: &Mcu) -> bool
    ensures { result ≡ met_if cell_kind arms mcu.now }
{
    match arms {
        None => false,
        Some(arms) => holds_cell(arms, mcu),
    }
}

impl AddressProbe {
    /// A probe that isn't armed yet.
    pub fn new() -> AddressProbe
        ensures unarmed { ⟦<AddressProbe as Probe>⟧.watch result ≡ unarmed address_kind }
    {
        AddressProbe {
            counter: Counter::new(),
        }
    }
}

impl Probe for AddressProbe {
    ghost watch = { λ p. seen_as address_kind p.counter };

    fn arm(&mut self, a: u16, b: u8) {
        self.counter.arm(a, b);
    }

    fn look(&mut self, step: u64, joint: &Joint) -> bool {
        let met = is_at(self.counter.arms(), joint.mcu());
        self.counter.note(step, met);
        met
    }

    fn rests(&self, _clk: bool) -> bool {
        self.counter.is_unarmed()
    }

    fn tell(&self) -> Tally {
        self.counter.tally()
    }
}

impl RegisterProbe {
    /// A probe that isn't armed yet.
    pub fn new() -> RegisterProbe
        ensures unarmed { ⟦<RegisterProbe as Probe>⟧.watch result ≡ unarmed register_kind }
    {
        RegisterProbe {
            counter: Counter::new(),
        }
    }
}

impl Probe for RegisterProbe {
    ghost watch = { λ p. seen_as register_kind p.counter };

    fn arm(&mut self, a: u16, b: u8) {
        self.counter.arm(a, b);
    }

    fn look(&mut self, step: u64, joint: &Joint) -> bool {
        let met = has_register(self.counter.arms(), joint.mcu());
        self.counter.note(step, met);
        met
    }

    fn rests(&self, _clk: bool) -> bool {
        self.counter.is_unarmed()
    }

    fn tell(&self) -> Tally {
        self.counter.tally()
    }
}

impl CellProbe {
    /// A probe that isn't armed yet.
    pub fn new() -> CellProbe
        ensures unarmed { ⟦<CellProbe as Probe>⟧.watch result ≡ unarmed cell_kind }
    {
        CellProbe {
            counter: Counter::new(),
        }
    }
}

impl Probe for CellProbe {
    ghost watch = { λ p. seen_as cell_kind p.counter };

    fn arm(&mut self, a: u16, b: u8) {
        self.counter.arm(a, b);
    }

    fn look(&mut self, step: u64, joint: &Joint) -> bool {
        let met = has_cell(self.counter.arms(), joint.mcu());
        self.counter.note(step, met);
        met
    }

    fn rests(&self, _clk: bool) -> bool {
        self.counter.is_unarmed()
    }

    fn tell(&self) -> Tally {
        self.counter.tally()
    }
}
