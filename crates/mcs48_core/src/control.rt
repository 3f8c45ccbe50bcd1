//! Interrupts, banks, the timer's start and stop, and the clock output.

ghost use Rattle.std.specs.Prelude.{◌≡◌, ◌<◌};
ghost use Rattle.mcs48_core.specs.Control.{control};

use crate::processor::{Count, Mcu};
use mcs48_isa::ControlOp;

impl Mcu {
    /// Does a control operation, with the counter `here`, after its byte. The answer is the next counter.
    #[inline(always)]
    pub(crate) fn control(&mut self, op: ControlOp, here: u16) -> u16
        requires within { here < 4096 }
        ensures state { record self.new { pc = result } ≡ control op (record self.old { pc = here }) }
        ensures counter { result < 4096 }
    {
        match op {
            ControlOp::Nop => {}
            ControlOp::EnI => self.ext_on = true,
            ControlOp::DisI => self.ext_on = false,
            ControlOp::EnTcnti => self.tim_on = true,
            ControlOp::DisTcnti => {
                self.tim_on = false;
                self.rq = false;
            }
            ControlOp::SelRb0 => self.set_bank(false),
            ControlOp::SelRb1 => self.set_bank(true),
            ControlOp::SelMb0 => self.mb = false,
            ControlOp::SelMb1 => self.mb = true,
            ControlOp::StrtT => {
                self.run = Count::Timer;
                self.pre = 0;
            }
            ControlOp::StrtCnt => self.run = Count::Counter,
            ControlOp::StopTcnt => self.run = Count::Off,
            ControlOp::Ent0Clk => self.clk = true,
        }
        here
    }
}
