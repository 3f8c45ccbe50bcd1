//! The places that a line fills.

ghost use Rattle.std.specs.Prelude.{◌≡◌, ◌-◌, ◌||◌, ℕ, false, length, slice_index, slice_index_or, OnOk, if◌then◌else◌};
ghost use Rattle.mcs48_asm.specs.Faults.{is_past_end};
ghost use Rattle.mcs48_asm.specs.Names.{bytes_of};
ghost use Rattle.mcs48_asm.specs.Places.{covers};
ghost use Rattle.mcs48_asm.specs.Kept.{kept_value, line_seen};

use crate::line::Line;
use crate::meaning::bytes_of;
use crate::memory::{mark, put};
use crate::names::Names;
use std::alloc::{AllocError, Global};

/// Puts a line's bytes at the places from one on, and marks these as filled.
pub(crate) fn fill(
    alloc: Global,
    names: &Names<'_>,
    line: Line<'_>,
    start: u32,
    bytes: &mut [u8],
    filled: &mut [bool],
) -> Result<(), AllocError>
    requires memory { length bytes.old ≡ 2048 }
    requires marks { length filled.old ≡ 2048 }
    requires within { is_past_end (record { start = start; line = line_seen line }) ≡ false }
    ensures bytes { OnOk result ((place : ℕ) → slice_index bytes.new place
        ≡ (if covers (record { start = start; line = line_seen line.entry }) place
        then slice_index (bytes_of (kept_value names.now.entries) (line_seen line.entry).statement)
        (place - start) else slice_index bytes.old place)) }
    ensures marks { OnOk result ((place : ℕ) → slice_index_or filled.new place false
        ≡ (covers (record { start = start; line = line_seen line.entry }) place
        || slice_index_or filled.old place false)) }
{
    let own = bytes_of(alloc, names, line.statement)?;
    if !own.is_empty() {
        put(bytes, start as usize, own.as_slice());
        mark(filled, start as usize, start as usize + own.len());
    }
    Ok(())
}
