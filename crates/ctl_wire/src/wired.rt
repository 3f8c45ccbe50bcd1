//! The controller with its wires, driven cycle by cycle.

ghost use Rattle.std.specs.Prelude.{◌≡◌, ◌↔◌, ◌<◌, ◌≤◌, ◌^◌, true, false, IsErr, IsSome, IfErr, OnErr, OnOk, Some};
ghost use Rattle.ctl_core.specs.Controller.{emptied, status_of, written};
ghost use Rattle.ctl_wire.specs.Cycles.{at_start, looked, next_cycle, settles, settling, with_core, with_flip};
ghost use Rattle.ctl_wire.specs.Wire.{drive};

use crate::driving::drive_of;
use crate::falling::fall;
use crate::wire::Wire;
use board_terms::Lines;
use ctl_core::{Controller, Did, InputFull, Port as HostPort};
use ctl_link::LinkEnd;
use std::marker::Model;

/// The controller with its wires. In each cycle it looks at the wires, then the host may act, then it settles; the
/// value keeps the cycle of its last look, and whether that look waits for its settling.
#[derive(Drop)]
pub struct CtlWire {
    port: LinkEnd<Wire>,
    clock: bool,
    cycle: Option<u64>,
    waits: bool,
}

impl Model for CtlWire {
    ghost use Rattle.ctl_link.specs.Empty.{IsEmptyUnlessHeld};
    ghost use Rattle.ctl_wire.specs.Cycles.{WireState};

    ghost Value = { WireState };

    ghost view = { λ w. record { port = w.port; clock = w.clock; cycle = w.cycle; waits = w.waits } };

    ghost invariant = { λ w. IsEmptyUnlessHeld w.port };
}

impl CtlWire {
    /// The controller at its start, before its first look: the clock was high.
    pub fn new() -> CtlWire
        ensures start { result ≡ at_start }
    {
        CtlWire {
            port: LinkEnd::new(),
            clock: true,
            cycle: None,
            waits: false,
        }
    }

    /// The look of cycle `now` at the wires. The clock falls if it was high at the last look and is low at this one.
    pub fn look(&mut self, now: u64, line: Lines)
        requires settled { self.old.waits ≡ false }
        requires cycle { now ≡ next_cycle self.old.cycle }
        requires range { now < 2 ^ 63 }
        ensures after { self.new ≡ looked now line self.old }
    {
        if self.clock && !line.clk {
            fall(&mut self.port, now, line.dat);
        }
        self.clock = line.clk;
        self.cycle = Some(now);
        self.waits = true;
    }

    /// The host writes a port, as `Controller::host_write`.
    pub fn host_write(&mut self, port: HostPort, byte: u8) -> Result<(), InputFull>
        ensures full { IsErr result ↔ IsSome self.old.port.core.input }
        ensures status { IfErr result (λ fault. fault.status ≡ status_of self.old.port.core) }
        ensures unchanged { OnErr result (self.new ≡ self.old) }
        ensures written { OnOk result (self.new ≡ with_core (written port byte self.old.port.core) self.old) }
    {
        self.port.core.host_write(port, byte)
    }

    /// The host reads port 60h, as `Controller::host_read60`.
    pub fn host_read60(&mut self) -> u8
        ensures byte { result ≡ self.old.port.core.output }
        ensures emptied { self.new ≡ with_core (emptied self.old.port.core) self.old }
    {
        self.port.core.host_read60()
    }

    /// Noise turns round this bit of the next frame of the keyboard, the start being bit 0, in place of a bit that was
    /// to be turned round before.
    pub fn flip(&mut self, bit: u8)
        requires looked { self.old.waits ≡ true }
        requires least { 1 ≤ bit }
        requires most { bit ≤ 9 }
        ensures flip { self.new ≡ with_flip bit self.old }
    {
        self.port.flip = Some(bit);
    }

    /// The controller without its wires, for its status and its command byte.
    pub fn core(&self) -> &Controller
        ensures core { result.now ≡ self.now.port.core }
    {
        &self.port.core
    }

    /// The controller settles at the end of cycle `now`: a waiting input breaks off the keyboard's byte, if fewer
    /// than ten of its falling edges have been and no reply is awaited, and is taken if it may be. Answers what the
    /// input taken did.
    pub fn settle(&mut self, now: u64) -> Did
        requires looked { self.old.waits ≡ true }
        requires cycle { self.old.cycle ≡ Some now }
        requires range { now < 2 ^ 63 }
        ensures wire { self.new ≡ settles now self.old }
        ensures did { result ≡ (settling now self.old).did }
    {
        self.waits = false;
        self.port.break_off(now);
        self.port.settle(now)
    }

    /// What the controller drives since its last cycle; both wires are high before the first.
    pub fn drive(&self) -> Lines
        ensures driven { result ≡ drive self.now.port.link }
    {
        drive_of(&self.port.link)
    }

    /// The cycle in which the output buffer was last filled, 0 at first.
    pub fn filled(&self) -> u64
        ensures filled { result ≡ self.now.port.filled }
    {
        self.port.filled
    }
}
