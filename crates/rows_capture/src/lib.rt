//! Tests of captures: what dumps say of the two wires, what is found in them, what is said of it, and what was typed.
//!
//! The dumps are beginnings of what `trace` prints, and the same as sigrok writes it. No layer depends on this crate.
#![tactic(auto)]

mod distorting;
mod speaking;
mod typing;

ghost use Rattle.std.specs.Prelude.{◌<◌, length};

use capture_frames::{Finding, Listener, Said, Timed, Whole};
use capture_lines::capture;
use capture_vcd::{Reader, VcdFault};
use std::test::Fail;

/// A frame of the keyboard with the byte AA, and the hold that begins within its last pulse, as `trace` writes them.
const TEST_PASSED: &[u8] =
    b"$timescale 100 ns $end\n$scope module kbd $end\n$var wire 1 c clock $end\n$var wire 1 d data $end\n$upscope $end\n$enddefinitions $end\n#0\n1c\n1d\n#3386000\n0d\n#3386450\n0c\n#3386850\n1c\n#3387250\n0c\n#3387650\n1c\n#3387775\n1d\n#3388050\n0c\n#3388450\n1c\n#3388575\n0d\n#3388850\n0c\n#3389250\n1c\n#3389375\n1d\n#3389650\n0c\n#3390050\n1c\n#3390175\n0d\n#3390450\n0c\n#3390850\n1c\n#3390975\n1d\n#3391250\n0c\n#3391650\n1c\n#3391775\n0d\n#3392050\n0c\n#3392450\n1c\n#3392575\n1d\n#3392850\n0c\n#3393250\n1c\n#3393650\n0c\n#3394050\n1c\n#3394450\n0c\n$comment keyboard AA $end\n#3396025\n1c\n";

/// The same byte without its fifth pulse, as sigrok writes it, beside a vector.
const PULSE_MISSING: &[u8] =
    b"$date today $end\n$version libsigrok 0.5.2 $end\n$comment\n  Acquisition with 3/3 channels at 400 kHz\n$end\n$timescale 1us $end\n$scope module libsigrok $end\n$var wire 1 ! D0 $end\n$var wire 1 \" D1 $end\n$var reg 8 bus port [7:0] $end\n$upscope $end\n$enddefinitions $end\n$dumpvars 1! 1\" b00000000 bus $end\n#100 0\"\n#145 0!\n#185 1!\n#225 0!\n#265 1!\n#278 1\"\n#305 0!\n#345 1! b101 bus\n#358 0\"\n#385 0!\n#425 1!\n#438 1\"\n#518 0\"\n#545 0!\n#585 1!\n#598 1\"\n#625 0!\n#665 1!\n#678 0\"\n#705 0!\n#745 1!\n#758 1\"\n#785 0!\n#825 1!\n#865 0!\n#905 1!\n#945 0!\n#1103 1!\n#2000\n";

/// Three pulses of a frame, in the last of which the capture ends.
const ENDS_WITHIN: &[u8] =
    b"$timescale 1 us $end\n$var wire 1 c clock $end\n$var wire 1 d data $end\n$enddefinitions $end\n#0 1c 1d\n#60 0d\n#100 0c\n#140 1c\n#180 0c\n#182 1c\n#183 0c\n#220 1c\n#260 0c\n";

/// What is said of the byte AA: its line, what INT 09h reads, and the summary.
const SAID: &[u8] =
    b"338645.000 keyboard AA\n338645.000 port AA\n339445.000 hold\nright frames: 1\nwrong frames: 0\nbroken off: 0\nnot whole: 0\nedges without a start bit: 0\npulses too short: 0\nholds: 1\nholds with a request: 0\ntimes outside the limits: 0\nleast clock period: 80.000\nmean clock period: 80.000\ngreatest clock period: 80.000\nbreaks without a code: 0\nbytes asked for three times: 0\n";

/// Two pulses of a frame and a hold, each with a time outside its limits.
const OUTSIDE: &[u8] =
    b"$timescale 1 us $end\n$var wire 1 c clock $end\n$var wire 1 d data $end\n$enddefinitions $end\n#0 1c 1d\n#100 0d\n#103 0c\n#155 1c\n#180 0c\n#220 1c\n#5000 0c\n#5057 1c\n";

/// What is said of them.
const SAID_OUTSIDE: &[u8] =
    b"103.000 keyboard only 2 of 11 edges\n5000.000 hold and request\n5057.000 host unfinished after 0 of 11 edges\n103.000 clock low for 52.000, not 30 to 50\n103.000 data changed 3.000 before the fall, not 5 or more\n180.000 clock high for 25.000, not 30 to 50\n5000.000 hold of 57.000, not 60 or more\nright frames: 0\nwrong frames: 0\nbroken off: 0\nnot whole: 2\nedges without a start bit: 0\npulses too short: 0\nholds: 0\nholds with a request: 1\ntimes outside the limits: 4\nleast clock period: 77.000\nmean clock period: 77.000\ngreatest clock period: 77.000\nbreaks without a code: 0\nbytes asked for three times: 0\n";

/// What is left of the findings after this one, if it is the first of them; or after none.
fn without(left: &[Timed], found: Option<Timed>) -> Option<&[Timed]> {
    let Some(found) = found else {
        return Some(left);
    };
    match left {
        [first, rest @ ..] if *first == found => Some(rest),
        _ => None,
    }
}

/// What is left of the findings after all that was said, if they begin with it.
fn after(left: &[Timed], said: Said) -> Option<&[Timed]> {
    let left = without(left, said.frame)?;
    without(left, said.pulse)
}

/// Whether a dump has these findings, in order, and no fault.
fn has(text: &[u8], clk: &[u8], dat: &[u8], wanted: &[Timed]) -> bool
    requires { length text.now < 4294967295 }
{
    let mut reader = Reader::new(text, clk, dat);
    let mut listener = Listener::new();
    let mut left = wanted;
    for _turn in 0..u64::MAX {
        let Ok(Some(sample)) = reader.next_sample() else {
            break;
        };
        let said = listener.hear(sample.time, sample.lines);
        let Some(rest) = after(left, said) else {
            return false;
        };
        left = rest;
    }
    let is_whole = after(left, listener.end()).is_some_and(|rest| rest.is_empty());
    is_whole && reader.next_sample() == Ok(None)
}

/// The fault of a dump, after its samples.
fn fault(text: &[u8]) -> Option<VcdFault>
    requires { length text.now < 4294967295 }
{
    let mut reader = Reader::new(text, b"clock", b"data");
    for _turn in 0..u64::MAX {
        match reader.next_sample() {
            Ok(Some(_)) => {}
            Ok(None) => return None,
            Err(fault) => return Some(fault),
        }
    }
    None
}

/// A finding, with its time in nanoseconds.
fn timed(time: u64, finding: Finding) -> Timed {
    Timed { time, finding }
}

#[test]
fn a_trace_has_its_byte_and_its_hold(rt: HostRuntime) -> Result<(), Fail> {
    let byte = Finding::Byte(Whole {
        from_host: false,
        byte: 0xaa,
        start: true,
        parity: true,
        stop: true,
        acknowledged: true,
    });
    let wanted = [
        timed(338_645_000, byte),
        timed(339_445_000, Finding::Hold(false)),
    ];
    assert!(rt; has(TEST_PASSED, b"clock", b"data", &wanted));
    Ok(())
}

#[test]
fn a_frame_that_lacks_a_pulse_is_broken_off(rt: HostRuntime) -> Result<(), Fail> {
    let wanted = [
        timed(145_000, Finding::Cut(false, 9)),
        timed(945_000, Finding::Hold(false)),
    ];
    assert!(rt; has(PULSE_MISSING, b"D0", b"D1", &wanted));
    Ok(())
}

#[test]
fn a_capture_may_end_within_a_frame(rt: HostRuntime) -> Result<(), Fail> {
    let wanted = [
        timed(180_000, Finding::Glitch),
        timed(100_000, Finding::Unfinished(false, 2)),
        timed(260_000, Finding::StaysLow),
    ];
    assert!(rt; has(ENDS_WITHIN, b"clock", b"data", &wanted));
    Ok(())
}

#[test]
fn a_capture_is_printed(rt: HostRuntime) -> Result<(), Fail> {
    let captured = capture(rt.alloc(), TEST_PASSED, b"clock", b"data")?;
    assert!(rt; captured.fault.is_none());
    assert!(rt; captured.text.as_slice() == SAID);
    Ok(())
}

#[test]
fn times_outside_the_limits_are_printed(rt: HostRuntime) -> Result<(), Fail> {
    let captured = capture(rt.alloc(), OUTSIDE, b"clock", b"data")?;
    assert!(rt; captured.fault.is_none());
    assert!(rt; captured.text.as_slice() == SAID_OUTSIDE);
    Ok(())
}

#[test]
fn a_dump_is_refused_at_its_first_fault(rt: HostRuntime) -> Result<(), Fail> {
    assert!(rt; fault(TEST_PASSED).is_none());
    assert!(rt;
        fault(PULSE_MISSING)
            == Some(VcdFault {
                line: 12,
                number: 6
            })
    );
    assert!(rt; fault(b"keyboard") == Some(VcdFault { line: 1, number: 1 }));
    assert!(rt; fault(b"$timescale 1 s $end") == Some(VcdFault { line: 1, number: 2 }));
    Ok(())
}
