//! The ports, the bus and the port expander.

ghost use Rattle.std.specs.Prelude.{◌≡◌, ◌<◌};
ghost use Rattle.mcs48_core.specs.Ports.{port};

use crate::levels::Pins;
use crate::processor::Mcu;
use crate::registers::counted;
use mcs48_isa::PortOp;

impl Mcu {
    /// Reads or writes a port, with the counter `here`, after the first byte. The answer is the next counter.
    #[inline(always)]
    pub(crate) fn transfer(&mut self, op: PortOp, here: u16, pins: &Pins) -> u16
        requires within { here < 4096 }
        ensures state { record self.new { pc = result } ≡ port op pins.now (record self.old { pc = here }) }
        ensures counter { result < 4096 }
    {
        match op {
            PortOp::InP1 => self.a = self.p1 & pins.p1,
            PortOp::InP2 => self.a = self.p2 & pins.p2,
            PortOp::InsBus => self.a = pins.bus,
            PortOp::OutlP1 => self.p1 = self.a,
            PortOp::OutlP2 => self.p2 = self.a,
            PortOp::OutlBus => self.bus = self.a,
            PortOp::AnlP1(n) => {
                self.p1 &= n;
                return counted(here);
            }
            PortOp::AnlP2(n) => {
                self.p2 &= n;
                return counted(here);
            }
            PortOp::AnlBus(n) => {
                self.bus &= n;
                return counted(here);
            }
            PortOp::OrlP1(n) => {
                self.p1 |= n;
                return counted(here);
            }
            PortOp::OrlP2(n) => {
                self.p2 |= n;
                return counted(here);
            }
            PortOp::OrlBus(n) => {
                self.bus |= n;
                return counted(here);
            }
            PortOp::MovdAP(_) => self.a = 0x0f,
            PortOp::MovdPA(_) | PortOp::OrldPA(_) | PortOp::AnldPA(_) => {}
        }
        here
    }
}
