//! Frames on the wires, as the decoder reads them.

use board_terms::{Lines, Transfer};
use run_probes::LineDecoder;

/// What the decoder answers to a sample; None if it isn't after the last one.
fn heard(decoder: &mut LineDecoder, cycle: u64, clk: bool, dat: bool) -> Option<Transfer> {
    if decoder.is_later_than(cycle) {
        decoder.sample(cycle, Lines { clk, dat })
    } else {
        None
    }
}

/// What it answers to the last of some falls, so many cycles apart, with the data wire at these levels; 1 is high.
fn decoded(levels: &[u8], apart: u64) -> Option<Transfer> {
    let mut decoder = LineDecoder::new();
    let mut last = None;
    let mut fall: u64 = 1000;
    for level in levels {
        let dat = *level == b'1';
        let _ = heard(&mut decoder, fall.saturating_sub(1), true, dat);
        last = heard(&mut decoder, fall, false, dat);
        fall = fall.saturating_add(apart);
    }
    last
}

/// The levels at some falls, how many cycles they are apart, and what is read: whether the host sends, and the byte.
type Case = (&'static [u8], u64, Option<(bool, u8)>);

static CASES: [Case; 8] = [
    (b"00011100001", 32, Some((false, 0x1c))),
    (b"00101010111", 32, Some((false, 0xaa))),
    // Falls that are too close, too far apart, or too few.
    (b"00101010111", 31, None),
    (b"00101010111", 33, None),
    (b"0010101011", 32, None),
    // ED from the host; the same with even parity, and without an answer.
    (b"10110111110", 32, Some((true, 0xed))),
    (b"10110111010", 32, None),
    (b"10110111111", 32, None),
];

#[test]
fn eleven_falls_are_a_byte(rt: HostRuntime) {
    for (at, (levels, apart, read)) in CASES.iter().enumerate() {
        let transfer = match *read {
            Some((from_host, byte)) => Some(Transfer { from_host, byte }),
            None => None,
        };
        assert!(rt; decoded(levels, *apart) == transfer, "case {at}");
    }
}
