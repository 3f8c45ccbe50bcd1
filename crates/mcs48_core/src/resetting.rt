//! The state after reset.

ghost use Rattle.std.specs.Prelude.{◌≡◌};
ghost use Rattle.mcs48_core.specs.Reset.{reset_cpu};

use crate::processor::{Count, Mcu};

/// The processor after reset: counter, stack pointer, bank and memory bank 0, latches FF, interrupts off, timer
/// stopped, all flags clear. The manual leaves the rest open; here the accumulator, the timer, the prescaler and data
/// memory are 0, the carries are clear, and the last level of T1 is high.
pub fn reset() -> Mcu
    ensures reset { result ≡ reset_cpu }
{
    Mcu {
        pc: 0,
        a: 0,
        psw: 0x08,
        f1: false,
        mb: false,
        ram: [0; 128],
        t: 0,
        pre: 0,
        tf: false,
        run: Count::Off,
        ext_on: false,
        tim_on: false,
        rq: false,
        svc: false,
        p1: 0xff,
        p2: 0xff,
        bus: 0xff,
        clk: false,
        last_t1: true,
    }
}
