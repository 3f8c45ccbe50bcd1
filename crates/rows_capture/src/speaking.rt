//! What bytes say of a keyboard: dumps that are made of frames. Times are in microseconds.

ghost use Rattle.std.specs.Prelude.{◌≤◌};

use board_terms::frame_of;
use capture_lines::capture;
use std::alloc::AllocError;
use std::test::Fail;

/// A frame, by who sends it.
#[derive(Clone, Copy, Debug)]
pub(crate) enum Sent {
    Keyboard(u8),
    Host(u8),
}

const HEAD: &[u8] =
    b"$timescale 1 us $end\n$var wire 1 c clock $end\n$var wire 1 d data $end\n$enddefinitions $end\n#0 1c 1d\n";

/// The third FE in a row, of a keyboard that sends a break of code set 1.
const THREE_TIMES: &[Sent] = &[
    Sent::Keyboard(0x9c),
    Sent::Host(0xfe),
    Sent::Keyboard(0x9c),
    Sent::Host(0xfe),
    Sent::Keyboard(0x9c),
    Sent::Host(0xfe),
];

/// The end of what is said of it.
const SAID_THREE_TIMES: &[u8] =
    b"times outside the limits: 0\nleast clock period: 80.000\nmean clock period: 80.000\ngreatest clock period: 80.000\nthese are codes of set 1: an XT keyboard\nbreaks without a code: 0\nbytes asked for three times: 1\n";

/// A break's first byte twice, and then a code; FE for that, twice, and another byte.
const LONE_BREAK: &[Sent] = &[
    Sent::Keyboard(0xf0),
    Sent::Keyboard(0xf0),
    Sent::Keyboard(0x1c),
    Sent::Host(0xfe),
    Sent::Keyboard(0x1c),
    Sent::Host(0xfe),
    Sent::Keyboard(0x1c),
    Sent::Host(0xed),
    Sent::Host(0xfe),
];

/// The end of what is said of it.
const SAID_LONE_BREAK: &[u8] =
    b"times outside the limits: 0\nleast clock period: 80.000\nmean clock period: 80.000\ngreatest clock period: 80.000\nbreaks without a code: 1\nbytes asked for three times: 0\n";

/// No dump of these tests is longer.
pub(crate) const MOST: usize = 100_000;

/// No frame of these tests begins later.
const MOST_TIME: u32 = 900_000_000;

/// Appends a time and what changes then.
fn push_change(text: &mut Vec<u8>, time: u32, change: &[u8]) -> Result<(), AllocError> {
    text.push(b'#')?;
    text.extend_from_slice(itoa::Buffer::new().format(time).as_bytes())?;
    text.push(b' ')?;
    text.extend_from_slice(change)?;
    text.push(b'\n')?;
    Ok(())
}

/// Appends a pulse of the clock before which, or within which, data gets a level.
fn push_pulse(text: &mut Vec<u8>, fall: u32, bit: bool, is_within: bool) -> Result<(), AllocError>
    requires after { 10 ≤ fall }
    requires below { fall ≤ 1000000000 }
{
    let data: &[u8] = if bit { b"1d" } else { b"0d" };
    if !is_within {
        push_change(text, fall - 10, data)?;
    }
    push_change(text, fall, b"0c")?;
    if is_within {
        push_change(text, fall + 10, data)?;
    }
    push_change(text, fall + 40, b"1c")
}

/// Appends a frame of the keyboard that begins at this time.
fn push_keyboard(text: &mut Vec<u8>, start: u32, byte: u8) -> Result<(), AllocError>
    requires { start ≤ 900000000 }
{
    for (place, bit) in frame_of(byte).bits.iter().enumerate() {
        push_pulse(text, start + 200 + 80 * place as u32, *bit, false)?;
    }
    push_change(text, start + 2_000, b"1d")
}

/// Appends a request of the host and its frame.
fn push_host(text: &mut Vec<u8>, start: u32, byte: u8) -> Result<(), AllocError>
    requires { start ≤ 900000000 }
{
    push_change(text, start, b"0c")?;
    push_change(text, start + 60, b"0d")?;
    push_change(text, start + 100, b"1c")?;
    for (place, bit) in frame_of(byte).bits[1..].iter().enumerate() {
        push_pulse(text, start + 200 + 80 * place as u32, *bit, true)?;
    }
    push_pulse(text, start + 1_000, false, false)?;
    push_change(text, start + 2_000, b"1d")
}

/// The dump of frames, one in so many microseconds.
pub(crate) fn dump_of(
    rt: &HostRuntime,
    frames: &[Sent],
    apart: u32,
) -> Result<Vec<u8>, AllocError> {
    let mut text = Vec::new(rt.alloc());
    text.extend_from_slice(HEAD)?;
    for (place, frame) in frames.iter().enumerate() {
        let start = apart
            .saturating_mul(1 + (place % 100) as u32)
            .min(MOST_TIME);
        match frame {
            Sent::Keyboard(byte) => push_keyboard(&mut text, start, *byte)?,
            Sent::Host(byte) => push_host(&mut text, start, *byte)?,
        }
    }
    Ok(text)
}

/// Whether a text ends so.
fn ends_with(text: &[u8], end: &[u8]) -> bool {
    text.len() >= end.len() && &text[text.len() - end.len()..] == end
}

#[test]
fn three_requests_and_codes_of_set_1_are_said(rt: HostRuntime) -> Result<(), Fail> {
    let dump = dump_of(&rt, THREE_TIMES, 10_000)?;
    let captured = capture(rt.alloc(), &dump[..dump.len().min(MOST)], b"clock", b"data")?;
    assert!(rt; captured.fault.is_none());
    assert!(rt; ends_with(&captured.text, SAID_THREE_TIMES));
    Ok(())
}

#[test]
fn a_break_without_a_code_is_counted(rt: HostRuntime) -> Result<(), Fail> {
    let dump = dump_of(&rt, LONE_BREAK, 10_000)?;
    let captured = capture(rt.alloc(), &dump[..dump.len().min(MOST)], b"clock", b"data")?;
    assert!(rt; captured.fault.is_none());
    assert!(rt; ends_with(&captured.text, SAID_LONE_BREAK));
    Ok(())
}
