//! The processor's bytes.

ghost use Rattle.std.specs.Prelude.{◌≡◌, length, Some};
ghost use Rattle.mcs48_core.specs.Status.{psw_of};
ghost use Rattle.mcs48_bytes.specs.Processors.{count_by, count_byte, processor_bytes, processor_in};

use crate::numbers::{truth_at, word_at};
use mcs48_core::{Count, Mcu};

/// The status byte.
fn status(mcu: &Mcu) -> u8
    ensures { result ≡ psw_of mcu.now }
{
    mcu.psw
}

/// How the timer runs, as a byte.
fn count_byte(run: Count) -> u8
    ensures { result ≡ count_byte run }
{
    match run {
        Count::Off => 0,
        Count::Timer => 1,
        Count::Counter => 2,
    }
}

/// How the timer runs, by its byte.
fn count_by(byte: u8) -> Count
    ensures { result ≡ count_by byte }
{
    match byte {
        0 => Count::Off,
        1 => Count::Timer,
        _ => Count::Counter,
    }
}

/// The processor's bytes, but for data memory. They are read as this processor.
pub fn processor_bytes(mcu: &Mcu) -> [u8; 19]
    ensures bytes { result ≡ processor_bytes mcu.now }
    ensures read { processor_in result mcu.now.ram ≡ Some mcu.now }
    ensures memory { length mcu.now.ram ≡ 128 }
{
    let [low, high] = mcu.pc.to_le_bytes();
    [
        low,
        high,
        mcu.a,
        status(mcu),
        u8::from(mcu.f1),
        u8::from(mcu.mb),
        mcu.t,
        mcu.pre,
        u8::from(mcu.tf),
        count_byte(mcu.run),
        u8::from(mcu.ext_on),
        u8::from(mcu.tim_on),
        u8::from(mcu.rq),
        u8::from(mcu.svc),
        mcu.p1,
        mcu.p2,
        mcu.bus,
        u8::from(mcu.clk),
        u8::from(mcu.last_t1),
    ]
}

/// The processor that these bytes mean, with this data memory; none if a number in them is too large.
pub fn processor_in(bytes: &[u8], ram: [u8; 128]) -> Option<Mcu>
    requires { length bytes.now ≡ 19 }
    ensures { result ≡ processor_in bytes.now ram }
{
    let pc = word_at(bytes, 0);
    let (psw, pre) = (bytes[3], bytes[7]);
    if pc >= 4096 || pre >= 32 || psw / 8 % 2 != 1 {
        return None;
    }
    Some(Mcu {
        pc,
        a: bytes[2],
        psw,
        f1: truth_at(bytes, 4),
        mb: truth_at(bytes, 5),
        ram,
        t: bytes[6],
        pre,
        tf: truth_at(bytes, 8),
        run: count_by(bytes[9]),
        ext_on: truth_at(bytes, 10),
        tim_on: truth_at(bytes, 11),
        rq: truth_at(bytes, 12),
        svc: truth_at(bytes, 13),
        p1: bytes[14],
        p2: bytes[15],
        bus: bytes[16],
        clk: truth_at(bytes, 17),
        last_t1: truth_at(bytes, 18),
    })
}
