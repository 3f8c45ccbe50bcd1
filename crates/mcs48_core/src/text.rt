//! The text that shows a processor's state.

ghost use Rattle.std.specs.Prelude.{◌≡◌, ◌+◌, ◌<◌, ◌≤◌, ◌++◌, length, IfOk};
ghost use Rattle.arrayvec.specs.ArrayVec.{array_vec_len};
ghost use Rattle.mcs48_core.specs.StateText.{flag, switch, run_word, counter_line, timer_fields, timer_line};
ghost use Rattle.mcs48_core.specs.StateText.{latch_line, first_registers, register_line, count_line, state_row};
ghost use Rattle.mcs48_core.specs.StateText.{state_text_of};

use crate::processor::{Count, Mcu};
use arrayvec::ArrayVec;
use hex_text::append;
use std::alloc::{AllocError, Global};

/// A flag as a digit.
fn flag(b: bool) -> &'static [u8]
    ensures { result.now ≡ flag b }
{
    if b { b"1" } else { b"0" }
}

/// An enabling as a word.
fn switch(b: bool) -> &'static [u8]
    ensures { result.now ≡ switch b }
{
    if b { b"on" } else { b"off" }
}

/// How the timer runs, as a word.
fn run_word(run: Count) -> &'static [u8]
    ensures { result.now ≡ run_word run }
{
    match run {
        Count::Off => b"off",
        Count::Timer => b"timer",
        Count::Counter => b"counter",
    }
}

/// A line of the text. None is longer.
type StateLine = ArrayVec<u8, 64>;

/// Appends a name and what it shows.
fn show(line: &mut StateLine, name: &[u8], shown: &[u8])
    requires { array_vec_len line.old + length name.now + length shown.now ≤ 64 }
    ensures { line.new.items ≡ line.old.items ++ name.now ++ shown.now }
{
    append(line, name);
    append(line, shown);
}

/// Counter, accumulator, status, flag 1 and memory bank.
fn counter_line(mcu: &Mcu) -> StateLine
    ensures { result.items ≡ counter_line mcu.now }
{
    let mut line = StateLine::new();
    show(&mut line, b"pc ", &hex_text::address(mcu.pc));
    show(&mut line, b" a ", &hex_text::byte(mcu.a));
    show(&mut line, b" psw ", &hex_text::byte(mcu.status()));
    show(&mut line, b" f1 ", flag(mcu.f1));
    show(&mut line, b" mb ", flag(mcu.mb));
    append(&mut line, b"\n");
    line
}

/// The state of the timer.
fn timer_fields(mcu: &Mcu) -> StateLine
    ensures fields { result.items ≡ timer_fields mcu.now }
    ensures short { array_vec_len result ≤ 29 }
{
    let mut line = StateLine::new();
    show(&mut line, b"t ", &hex_text::byte(mcu.t));
    show(&mut line, b" pre ", &hex_text::byte(mcu.pre));
    show(&mut line, b" tf ", flag(mcu.tf));
    show(&mut line, b" run ", run_word(mcu.run));
    line
}

/// Timer and interrupts.
fn timer_line(mcu: &Mcu) -> StateLine
    ensures { result.items ≡ timer_line mcu.now }
{
    let mut line = timer_fields(mcu);
    show(&mut line, b" ext ", switch(mcu.ext_on));
    show(&mut line, b" tim ", switch(mcu.tim_on));
    show(&mut line, b" rq ", flag(mcu.rq));
    show(&mut line, b" svc ", flag(mcu.svc));
    append(&mut line, b"\n");
    line
}

/// The latches.
fn latch_line(mcu: &Mcu) -> StateLine
    ensures { result.items ≡ latch_line mcu.now }
{
    let mut line = StateLine::new();
    show(&mut line, b"p1 ", &hex_text::byte(mcu.p1));
    show(&mut line, b" p2 ", &hex_text::byte(mcu.p2));
    show(&mut line, b" bus ", &hex_text::byte(mcu.bus));
    append(&mut line, b"\n");
    line
}

/// The first four registers of the selected bank.
fn first_registers(mcu: &Mcu) -> StateLine
    ensures registers { result.items ≡ first_registers mcu.now }
    ensures short { array_vec_len result ≤ 13 }
{
    let mut line = StateLine::new();
    show(&mut line, b"r ", &hex_text::byte(mcu.register(0)));
    show(&mut line, b" ", &hex_text::byte(mcu.register(1)));
    show(&mut line, b" ", &hex_text::byte(mcu.register(2)));
    show(&mut line, b" ", &hex_text::byte(mcu.register(3)));
    line
}

/// The eight registers of the selected bank.
fn register_line(mcu: &Mcu) -> StateLine
    ensures { result.items ≡ register_line mcu.now }
{
    let mut line = first_registers(mcu);
    show(&mut line, b" ", &hex_text::byte(mcu.register(4)));
    show(&mut line, b" ", &hex_text::byte(mcu.register(5)));
    show(&mut line, b" ", &hex_text::byte(mcu.register(6)));
    show(&mut line, b" ", &hex_text::byte(mcu.register(7)));
    append(&mut line, b"\n");
    line
}

/// The steps and the cycles done.
fn count_line(steps: u64, cycles: u64) -> StateLine
    ensures { result.items ≡ count_line steps cycles }
{
    let mut line = StateLine::new();
    show(
        &mut line,
        b"steps ",
        itoa::Buffer::new().format(steps).as_bytes(),
    );
    show(
        &mut line,
        b" cycles ",
        itoa::Buffer::new().format(cycles).as_bytes(),
    );
    append(&mut line, b"\n");
    line
}

/// One of the five lines that `state_text` has of this state, counted from 0, with its LF. It takes no memory.
pub fn state_line(mcu: &Mcu, steps: u64, cycles: u64, row: u8) -> ArrayVec<u8, 64>
    requires row { row < 5 }
    ensures line { result.items ≡ state_row mcu.now steps cycles row }
{
    match row {
        0 => counter_line(mcu),
        1 => timer_line(mcu),
        2 => latch_line(mcu),
        3 => register_line(mcu),
        _ => count_line(steps, cycles),
    }
}

/// The state of a processor after so many steps and machine cycles, as five lines, each with its LF. The counter has
/// three hexadecimal digits, bytes and the prescaler have two, in upper case; `r` shows the eight registers of the
/// selected bank; `steps` and `cycles` are decimal. The form is our own. At reset:
///
/// ```text
/// pc 000 a 00 psw 08 f1 0 mb 0
/// t 00 pre 00 tf 0 run off ext off tim off rq 0 svc 0
/// p1 FF p2 FF bus FF
/// r 00 00 00 00 00 00 00 00
/// steps 0 cycles 0
/// ```
///
/// The only error is want of memory.
pub fn state_text(alloc: Global, mcu: &Mcu, steps: u64, cycles: u64) -> Result<Vec<u8>, AllocError>
    ensures text { IfOk result (λ text. text.items ≡ state_text_of mcu.now steps cycles) }
{
    let mut text = Vec::new(alloc);
    for row in 0..5 {
        text.extend_from_slice(&state_line(mcu, steps, cycles, row))?;
    }
    Ok(text)
}
