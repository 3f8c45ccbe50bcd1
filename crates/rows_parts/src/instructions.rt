//! The text of an operation at the last place, which no listing shows.

use mcs48_isa::{decode, op_text};
use std::alloc::{AllocError, Global};
use std::test::Fail;

/// Whether the operation of these bytes has this text at the last place.
fn reads(alloc: Global, bytes: [u8; 2], text: &[u8]) -> Result<bool, AllocError> {
    match decode(bytes) {
        Some(row) => Ok(op_text(alloc, row.op, 0x7ff)?.as_slice() == text),
        None => Ok(false),
    }
}

/// A jump's second byte is in page 0 there.
#[test]
fn a_jump_at_the_last_place_goes_to_page_0(rt: HostRuntime) -> Result<(), Fail> {
    assert!(rt; reads(rt.alloc(), [0x96, 0x34], b"JNZ 0034H")?);
    Ok(())
}
