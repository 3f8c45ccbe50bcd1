//! The compiler from a key layout to a firmware image: the kernel with the layout's tables in it.
//!
//! This layer knows where the kernel keeps the layout's tables (hexadecimal): the code of place p at 300 + p and under Fn
//! at 361 + p, 00 if it has none; the rate at 360; at 3C1 + c a byte for column c, whose bit r is set if the key at
//! row r sends no break; the place of the Fn key at 3CD, FF if there is none; and at 3F2 a 1 if keys are debounced, else
//! 00. It must not know what the kernel does, nor a key. Our own.
#![tactic(auto)]

mod codes;

ghost use Rattle.std.specs.Prelude.{◌≡◌, ◌≤◌, ◌+◌, length};
ghost use Rattle.fw_compile.specs.Image.{image_of, with_table};
ghost use Rattle.fw_kernel.specs.Places.{HasKernel};

use crate::codes::{codes_of, debounce_byte, fn_byte, fn_codes_of, make_only_of};
use fw_kernel::KERNEL;
use layout_reader::Layout;
use mcs48_isa::Image;

/// The place of the first code.
const CODES: usize = 0x300;

/// The place of the rate, after the codes.
const RATE: usize = 0x360;

/// The place of the first code under Fn.
const FN_CODES: usize = 0x361;

/// The place of the first column's byte of the keys that send no break.
const MAKE_ONLY: usize = 0x3c1;

/// The place where the Fn key's place is.
const FN_PLACE: usize = 0x3cd;

/// The place of the byte that says whether keys are debounced.
const DEBOUNCE: usize = 0x3f2;

/// The image of a layout: the kernel with the layout's tables, which are at 300 to 3CD and at 3F2 (hexadecimal). Outside of them
/// it has the kernel's bytes. It never refuses.
pub fn compile(layout: &Layout) -> Image
    ensures image { result.bytes ≡ image_of layout.now }
    ensures kernel { HasKernel result.bytes }
{
    let mut bytes = KERNEL;
    put_table(&mut bytes, CODES, &codes_of(layout));
    put_table(&mut bytes, RATE, &[layout.rate()]);
    put_table(&mut bytes, FN_CODES, &fn_codes_of(layout));
    put_table(&mut bytes, MAKE_ONLY, &make_only_of(layout));
    put_table(&mut bytes, FN_PLACE, &[fn_byte(layout)]);
    put_table(&mut bytes, DEBOUNCE, &[debounce_byte(layout)]);
    Image { bytes }
}

/// Puts a table to where the kernel reads it.
fn put_table(bytes: &mut [u8; 2048], at: usize, table: &[u8])
    requires { at + length table.now ≤ 2048 }
    ensures { bytes.new ≡ with_table at table.now bytes.old }
{
    bytes[at..at + table.len()].copy_from_slice(table);
}
