//! What was typed in captures, as key files.

use crate::speaking::{MOST, Sent, dump_of};
use capture_keys::{CaptureFault, typed_keys};
use capture_vcd::VcdFault;
use key_file::read_history;
use layout_reader::us84_layout;
use std::alloc::AllocError;
use std::test::Fail;

/// Two strokes, one after the other.
const TWO_KEYS: &[Sent] = &[
    Sent::Keyboard(0x33),
    Sent::Keyboard(0xf0),
    Sent::Keyboard(0x33),
    Sent::Keyboard(0x43),
    Sent::Keyboard(0xf0),
    Sent::Keyboard(0x43),
];

/// Their key file, if a frame comes each 10 ms.
const TYPED_TWO_KEYS: &[u8] =
    b"162816 press h\n166816 release h\n174816 press i\n178816 release i\n203776 end\n";

/// Two keys, the second of which goes down before the first one goes up.
const ROLLED: &[Sent] = &[
    Sent::Keyboard(0x33),
    Sent::Keyboard(0x43),
    Sent::Keyboard(0xf0),
    Sent::Keyboard(0x33),
    Sent::Keyboard(0xf0),
    Sent::Keyboard(0x43),
];

/// Their key file, if a frame comes each 2.5 ms: each edge waits until the keyboard can see it.
const TYPED_ROLLED: &[u8] =
    b"162816 press h\n165056 press i\n167296 release h\n171776 release i\n196736 end\n";

/// The end of a stroke; a stroke with a code that repeats, and a reply within its break; a code that no key sends; a stroke
/// of which two bytes are asked for again; a break without a code; and a press.
const MIXED: &[Sent] = &[
    Sent::Keyboard(0xf0),
    Sent::Keyboard(0x5a),
    Sent::Keyboard(0x33),
    Sent::Keyboard(0x33),
    Sent::Keyboard(0xf0),
    Sent::Keyboard(0xfa),
    Sent::Keyboard(0x33),
    Sent::Keyboard(0x61),
    Sent::Keyboard(0xf0),
    Sent::Keyboard(0x61),
    Sent::Keyboard(0x43),
    Sent::Host(0xfe),
    Sent::Keyboard(0x43),
    Sent::Keyboard(0xf0),
    Sent::Host(0xfe),
    Sent::Keyboard(0xf0),
    Sent::Keyboard(0x43),
    Sent::Keyboard(0xf0),
    Sent::Keyboard(0xaa),
    Sent::Keyboard(0x33),
];

/// Its key file.
const TYPED_MIXED: &[u8] =
    b"162816 press h\n170816 release h\n# no key sends 61\n194816 press i\n206816 release i\n230816 press h\n253536 end\n";

/// Whether frames, each so many microseconds after the one before it, give this key file of the sample layout, which is
/// read back with so many edges.
fn types(
    rt: &HostRuntime,
    frames: &[Sent],
    apart: u32,
    wanted: &[u8],
    edges: usize,
) -> Result<bool, AllocError> {
    let layout = us84_layout(rt.alloc())?;
    let dump = dump_of(rt, frames, apart)?;
    let Ok(keys) = typed_keys(
        rt.alloc(),
        &layout,
        &dump[..dump.len().min(MOST)],
        b"clock",
        b"data",
    ) else {
        return Ok(false);
    };
    let Ok(history) = read_history(rt.alloc(), &keys[..keys.len().min(MOST)], &layout) else {
        return Ok(false);
    };
    Ok(keys.as_slice() == wanted && history.edges().len() == edges)
}

#[test]
fn strokes_have_the_times_of_the_capture(rt: HostRuntime) -> Result<(), Fail> {
    assert!(rt; types(&rt, TWO_KEYS, 10_000, TYPED_TWO_KEYS, 4)?);
    Ok(())
}

#[test]
fn edges_wait_until_the_keyboard_can_see_them(rt: HostRuntime) -> Result<(), Fail> {
    assert!(rt; types(&rt, ROLLED, 2_500, TYPED_ROLLED, 4)?);
    Ok(())
}

#[test]
fn what_moves_no_key_is_left_out(rt: HostRuntime) -> Result<(), Fail> {
    assert!(rt; types(&rt, MIXED, 10_000, TYPED_MIXED, 5)?);
    Ok(())
}

#[test]
fn a_capture_without_keys_gives_the_end_alone(rt: HostRuntime) -> Result<(), Fail> {
    assert!(rt; types(&rt, &[Sent::Keyboard(0xaa)], 10_000, b"183296 end\n", 0)?);
    Ok(())
}

#[test]
fn a_dump_with_a_fault_gives_no_key_file(rt: HostRuntime) -> Result<(), Fail> {
    let layout = us84_layout(rt.alloc())?;
    let fault = VcdFault { line: 1, number: 1 };
    assert!(rt;
        typed_keys(rt.alloc(), &layout, b"keyboard", b"clock", b"data").err()
            == Some(CaptureFault::Dump(fault))
    );
    Ok(())
}
