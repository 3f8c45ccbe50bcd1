//! Opening a keyboard that is run on until its interrupt line rises.

ghost use Rattle.std.specs.Prelude.{◌≡◌, ◌≤◌, ◌<◌, ◌⊎◌, true, false, length, Err};
ghost use Rattle.std.specs.Str.{is_utf8};
ghost use Rattle.hexfile.specs.Hex.{hex_of};
ghost use Rattle.hexfile.specs.declared.fault.HexFault.{HexFault};
ghost use Rattle.kbd48_c.specs.Opening.{HasOpenedHex, HasOpenedLayout, IsHexFault, IsLayoutFault};
ghost use Rattle.kbd48_c.specs.Statuses.{bad_text, done, no_memory, too_long};

use crate::handle::Handle;
use crate::opening::{Fault, open_hex, open_layout};
use std::alloc::Global;

/// Opens a keyboard with the program of a HEX text, as `kbd48_open_hex` does, and runs it on until the interrupt line
/// rises, or for a second.
#[unsafe(no_mangle)]
pub extern "C" fn kbd48_open_ready_hex(
    alloc: Global,
    text: &[u8],
    handle: &mut Handle,
    fault: &mut Fault,
) -> i32
    ensures opened { result ≡ done → HasOpenedHex true text.now handle.new.keyboard }
    ensures refused { (result ≡ done → ⊥) → handle.new.keyboard ≡ handle.old.keyboard }
    ensures fault { result ≡ bad_text → IsHexFault text.now fault.new }
    ensures long { 16384 < length text.now → result ≡ too_long }
    ensures only { result ≡ too_long → 16384 < length text.now }
    ensures status { (result ≡ done) ⊎ (result ≡ no_memory) ⊎ (result ≡ bad_text) ⊎ (result ≡ too_long) }
    ensures untouched { (result ≡ bad_text → ⊥) → fault.new ≡ fault.old }
    ensures faulty { (h : HexFault) → hex_of text.now ≡ Err h → (result ≡ bad_text) ⊎ (result ≡ too_long) }
{
    open_hex(alloc, text, true, handle, fault)
}

/// Opens a keyboard of a layout, as `kbd48_open_layout` does, and runs it on until the interrupt line rises, or for a
/// second.
#[unsafe(no_mangle)]
pub extern "C" fn kbd48_open_ready_layout(
    alloc: Global,
    text: &[u8],
    handle: &mut Handle,
    fault: &mut Fault,
) -> i32
    ensures opened { result ≡ done → HasOpenedLayout true text.now handle.new.keyboard }
    ensures refused { (result ≡ done → ⊥) → handle.new.keyboard ≡ handle.old.keyboard }
    ensures fault { result ≡ bad_text → IsLayoutFault text.now fault.new }
    ensures long { 65536 < length text.now → result ≡ too_long }
    ensures only { result ≡ too_long → 65536 < length text.now }
    ensures status { (result ≡ done) ⊎ (result ≡ no_memory) ⊎ (result ≡ bad_text) ⊎ (result ≡ too_long) }
    ensures untouched { (result ≡ bad_text → ⊥) → fault.new ≡ fault.old }
    ensures garbled { length text.now ≤ 65536 → is_utf8 text.now ≡ false → result ≡ bad_text }
{
    open_layout(alloc, text, true, handle, fault)
}
