//! The timer's part of a step.

ghost use Rattle.std.specs.Prelude.{◌≡◌, ◌<◌};
ghost use Rattle.mcs48_core.specs.Timer.{count_up, after_timer};

use crate::levels::Pins;
use crate::processor::{Count, Mcu};

impl Mcu {
    /// The timer goes on by one.
    fn count_up(&mut self)
        ensures { self.new ≡ count_up self.old }
    {
        if self.t == 0xff {
            self.tf = true;
            self.rq = self.rq || self.tim_on;
        }
        self.t = self.t.wrapping_add(1);
    }

    /// The timer after a step of so many cycles, from how it ran before the step.
    pub(crate) fn after_timer(&mut self, before: Count, cycles: u8, pins: &Pins)
        requires { cycles < 3 }
        ensures { self.new ≡ after_timer before cycles pins.now self.old }
    {
        match (before, self.run) {
            (Count::Timer, Count::Timer) => {
                let total = self.pre + cycles;
                if total >= 32 {
                    self.pre = total - 32;
                    self.count_up();
                } else {
                    self.pre = total;
                }
            }
            (Count::Counter, Count::Counter) => {
                if self.last_t1 && !pins.t1 {
                    self.count_up();
                }
            }
            _ => {}
        }
        self.last_t1 = pins.t1;
    }
}
