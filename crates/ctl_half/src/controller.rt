//! The controller, cycle by cycle.

ghost use Rattle.std.specs.Prelude.{◌≡◌, ◌↔◌, IsErr, IsSome, IfErr, OnErr, OnOk};
ghost use Rattle.ctl_core.specs.Controller.{emptied, status_of, written};
ghost use Rattle.ctl_wire.specs.Wire.{drive};
ghost use Rattle.ctl_half.specs.Controllers.{at_start, interrupts, is_turnable, looked, reset_of, settles, settling};
ghost use Rattle.ctl_half.specs.Controllers.{with_core, with_flip, with_pins};

use crate::pins::{is_pins_command, put_pins};
use board_terms::Lines;
use ctl_core::{Controller, Did, InputFull, Port};
use ctl_link::LinkEnd;
use ctl_wire::{Wire, drive_of, fall};
use std::marker::Model;

/// The controller at its two wires. A clause sees it as its end of the link, the level of the clock at its last look, and the
/// pins of its input port.
#[derive(Drop)]
pub struct CtlHalf {
    pub(crate) port: LinkEnd<Wire>,
    pub(crate) clock: bool,
    /// The pins, if somebody has set them.
    pub(crate) pins: Option<u8>,
}

impl Model for CtlHalf {
    ghost use Rattle.ctl_link.specs.Empty.{IsEmptyUnlessHeld};
    ghost use Rattle.ctl_half.specs.Controllers.{CtlState, pins_in};

    ghost Value = { CtlState };

    ghost view = { λ h. record { port = h.port; clock = h.clock; pins = pins_in h.pins } };

    ghost invariant = { λ h. IsEmptyUnlessHeld h.port };
}

impl CtlHalf {
    /// The controller at power-on: both buffers are empty, the command byte is 45, the link is free, the clock was high, and
    /// the pins are B0.
    pub fn new() -> CtlHalf
        ensures start { result ≡ at_start }
    {
        CtlHalf {
            port: LinkEnd::new(),
            clock: true,
            pins: None,
        }
    }

    /// Resets the controller: it is as at power-on, but the pins stay as they are.
    pub fn reset(&mut self)
        ensures start { self.new ≡ reset_of self.old }
    {
        self.port = LinkEnd::new();
        self.clock = true;
    }

    /// The pins of the input port have these levels from now on. Command C0 puts them out.
    pub fn set_pins(&mut self, pins: u8)
        ensures pins { self.new ≡ with_pins pins self.old }
    {
        self.pins = Some(pins);
    }

    /// The look of cycle `now` at the wires. The clock falls if it was high at the last look and is low at this one.
    #[inline(always)]
    pub fn look(&mut self, now: u64, line: Lines)
        ensures after { self.new ≡ looked now line self.old }
    {
        if self.clock && !line.clk {
            fall(&mut self.port, now, line.dat);
        }
        self.clock = line.clk;
    }

    /// The host writes a port, as `Controller::host_write`.
    pub fn host_write(&mut self, port: Port, byte: u8) -> Result<(), InputFull>
        ensures full { IsErr result ↔ IsSome self.old.port.core.input }
        ensures status { IfErr result (λ fault. fault.status ≡ status_of self.old.port.core) }
        ensures unchanged { OnErr result (self.new ≡ self.old) }
        ensures written { OnOk result (self.new ≡ with_core (written port byte self.old.port.core) self.old) }
    {
        self.port.core.host_write(port, byte)
    }

    /// The host reads port 60h, as `Controller::host_read60`.
    pub fn host_read60(&mut self) -> u8
        ensures byte { result ≡ self.old.port.core.output }
        ensures emptied { self.new ≡ with_core (emptied self.old.port.core) self.old }
    {
        self.port.core.host_read60()
    }

    /// Noise turns round this bit of the next frame of the keyboard, 1 to 9, the start being bit 0, in place of a bit that
    /// was to be turned round before. Answers whether there is such a bit; if not, nothing has changed.
    pub fn flip(&mut self, bit: u8) -> bool
        ensures flip { self.new ≡ with_flip bit self.old }
        ensures done { result ≡ is_turnable bit }
    {
        if bit < 1 || bit > 9 {
            return false;
        }
        self.port.flip = Some(bit);
        true
    }

    /// The controller settles at the end of cycle `now`: a waiting input breaks off the keyboard's byte, if fewer than ten
    /// of its falling edges have been and no reply is awaited, and is taken if it may be. What command C0 puts out is the
    /// pins. Answers what the input taken did.
    #[inline(always)]
    pub fn settle(&mut self, now: u64) -> Did
        ensures after { self.new ≡ settles now self.old }
        ensures did { result ≡ (settling now self.old).did }
    {
        let asked = is_pins_command(&self.port.core);
        self.port.break_off(now);
        let did = self.port.settle(now);
        put_pins(&mut self.port.core, asked, self.pins);
        did
    }

    /// What the controller drives on the two wires since its last cycle; both are high before the first.
    #[inline(always)]
    pub fn drives(&self) -> Lines
        ensures driven { result ≡ drive self.now.port.link }
    {
        drive_of(&self.port.link)
    }

    /// Whether the interrupt line is up: the output buffer is full, and the command byte lets its interrupt through.
    #[inline(always)]
    pub fn interrupts(&self) -> bool
        ensures up { result ≡ interrupts self.now }
    {
        self.port.core.output_full() && self.port.core.interrupt_enabled()
    }

    /// The controller without its wires: its status, its command byte, its output port and its last byte.
    pub fn buffers(&self) -> &Controller
        ensures core { result.now ≡ self.now.port.core }
    {
        &self.port.core
    }
}
