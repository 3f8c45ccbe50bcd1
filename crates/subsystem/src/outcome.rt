//! The outcome of a run.

ghost use Rattle.std.specs.Prelude.{◌≡◌};

use mcs48_core::Mcu;
use model_link::LogLine;

/// A run from power-on to the first tick start at or after the end stamp.
#[derive(Drop)]
pub struct Run {
    /// What happened, in the order of the cycles.
    pub log: Vec<LogLine>,
    /// The stamps of the tick starts, the last of which ended the run.
    pub starts: Vec<u64>,
    /// The processor there, before the step that begins the last tick.
    pub end: Mcu,
    /// The joint steps that were made.
    pub steps: u64,
    /// The cycles that they took.
    pub cycles: u64,
}

/// The processor as it is.
pub(crate) fn copied(mcu: &Mcu) -> Mcu
    ensures copy { result ≡ mcu.now }
{
    Mcu {
        pc: mcu.pc,
        a: mcu.a,
        psw: mcu.psw,
        f1: mcu.f1,
        mb: mcu.mb,
        ram: mcu.ram,
        t: mcu.t,
        pre: mcu.pre,
        tf: mcu.tf,
        run: mcu.run,
        ext_on: mcu.ext_on,
        tim_on: mcu.tim_on,
        rq: mcu.rq,
        svc: mcu.svc,
        p1: mcu.p1,
        p2: mcu.p2,
        bus: mcu.bus,
        clk: mcu.clk,
        last_t1: mcu.last_t1,
    }
}
