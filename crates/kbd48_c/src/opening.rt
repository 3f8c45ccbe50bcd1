//! Opening a keyboard over a text.

ghost use Rattle.std.specs.Prelude.{◌≡◌, ◌≤◌, ◌<◌, ◌⊎◌, false, length, Err, Some};
ghost use Rattle.std.specs.Str.{is_utf8};
ghost use Rattle.hexfile.specs.Hex.{hex_of};
ghost use Rattle.hexfile.specs.declared.fault.HexFault.{HexFault};
ghost use Rattle.int09.specs.Bios.{start};
ghost use Rattle.kbd48_c.specs.Opening.{HasOpened, HasOpenedHex, HasOpenedLayout, IsHexFault, IsLayoutFault};
ghost use Rattle.kbd48_c.specs.Statuses.{bad_text, done, no_memory, too_long};

use crate::handle::Handle;
use crate::status::{BAD_TEXT, DONE, NO_MEMORY, TOO_LONG};
use fw_compile::compile;
use hexfile::read_hex;
use int09::Bios;
use layout_reader::{LayoutFault, read_layout};
use live_board::Keyboard;
use mcs48_isa::Image;
use std::alloc::Global;

/// How long a HEX text may be, in bytes.
const MOST_HEX: usize = 16384;

/// How long a layout's text may be, in bytes.
pub(crate) const MOST_LAYOUT: usize = 65536;

/// The rule that bytes break which are no UTF-8 text: they are no TOML.
const NOT_TOML: u32 = 1;

/// Where a text has its first fault, and the number of the rule that it breaks.
#[repr(C)]
#[derive(Drop)]
pub struct Fault {
    pub position: u32,
    pub number: u32,
}

/// Whether these bytes are UTF-8 text. If not, they are no layout.
#[tactic(auto, using(crate::proofs::Texts::readable, crate::proofs::Texts::garbled))]
pub(crate) fn is_text(bytes: &[u8]) -> bool
    ensures text { result ≡ is_utf8 bytes.now }
{
    match std::str::from_utf8(bytes) {
        Ok(_) => true,
        Err(_) => false,
    }
}

/// A keyboard with this program and this INT 09h: at stamp 0, or ready, run on until its interrupt line rose or for a second.
fn board(image: &Image, bios: Bios, ready: bool) -> Keyboard
    requires start { bios ≡ start }
    ensures opened { HasOpened ready image.now.bytes (Some result) }
{
    if ready {
        Keyboard::open_ready(image, bios)
    } else {
        Keyboard::open(image, bios)
    }
}

/// Opens a keyboard with this program at the handle, and closes the one that was there.
pub(crate) fn open(alloc: Global, image: &Image, ready: bool, handle: &mut Handle) -> i32
    ensures opened { result ≡ done → HasOpened ready image.now.bytes handle.new.keyboard }
    ensures refused { (result ≡ done → ⊥) → handle.new.keyboard ≡ handle.old.keyboard }
    ensures status { (result ≡ done) ⊎ (result ≡ no_memory) }
{
    let Ok(bios) = Bios::new(alloc) else {
        return NO_MEMORY;
    };
    match Box::new(alloc, board(image, bios, ready)) {
        Ok(keyboard) => {
            *handle = Handle::holding(keyboard);
            DONE
        }
        Err(_) => NO_MEMORY,
    }
}

/// Opens a keyboard with the program of a HEX text, of at most 16,384 bytes, and closes the one that was there.
pub(crate) fn open_hex(
    alloc: Global,
    text: &[u8],
    ready: bool,
    handle: &mut Handle,
    fault: &mut Fault,
) -> i32
    ensures opened { result ≡ done → HasOpenedHex ready text.now handle.new.keyboard }
    ensures refused { (result ≡ done → ⊥) → handle.new.keyboard ≡ handle.old.keyboard }
    ensures fault { result ≡ bad_text → IsHexFault text.now fault.new }
    ensures long { 16384 < length text.now → result ≡ too_long }
    ensures only { result ≡ too_long → 16384 < length text.now }
    ensures status { (result ≡ done) ⊎ (result ≡ no_memory) ⊎ (result ≡ bad_text) ⊎ (result ≡ too_long) }
    ensures untouched { (result ≡ bad_text → ⊥) → fault.new ≡ fault.old }
    ensures faulty { (h : HexFault) → hex_of text.now ≡ Err h → (result ≡ bad_text) ⊎ (result ≡ too_long) }
{
    if text.len() > MOST_HEX {
        return TOO_LONG;
    }
    match read_hex(text) {
        Ok(image) => open(alloc, &image, ready, handle),
        Err(found) => {
            fault.position = found.line;
            fault.number = u32::from(found.number);
            BAD_TEXT
        }
    }
}

/// Opens a keyboard of a layout, from its text of at most 65,536 bytes, and closes the one that was there. Text that is too
/// long or no UTF-8 is refused before memory is taken.
#[tactic(auto, using(crate::proofs::Texts::no_layout))]
pub(crate) fn open_layout(
    alloc: Global,
    text: &[u8],
    ready: bool,
    handle: &mut Handle,
    fault: &mut Fault,
) -> i32
    ensures opened { result ≡ done → HasOpenedLayout ready text.now handle.new.keyboard }
    ensures refused { (result ≡ done → ⊥) → handle.new.keyboard ≡ handle.old.keyboard }
    ensures fault { result ≡ bad_text → IsLayoutFault text.now fault.new }
    ensures long { 65536 < length text.now → result ≡ too_long }
    ensures only { result ≡ too_long → 65536 < length text.now }
    ensures status { (result ≡ done) ⊎ (result ≡ no_memory) ⊎ (result ≡ bad_text) ⊎ (result ≡ too_long) }
    ensures untouched { (result ≡ bad_text → ⊥) → fault.new ≡ fault.old }
    ensures garbled { length text.now ≤ 65536 → is_utf8 text.now ≡ false → result ≡ bad_text }
{
    if text.len() > MOST_LAYOUT {
        return TOO_LONG;
    }
    if !is_text(text) {
        fault.position = 0;
        fault.number = NOT_TOML;
        return BAD_TEXT;
    }
    match read_layout(alloc, text) {
        Ok(layout) => open(alloc, &compile(&layout), ready, handle),
        Err(LayoutFault::Entry { entry, number }) => {
            fault.position = entry;
            fault.number = u32::from(number);
            BAD_TEXT
        }
        Err(LayoutFault::Memory) => NO_MEMORY,
    }
}

/// Opens a keyboard with the program of a HEX text, of at most 16,384 bytes, and closes the one that was there.
#[unsafe(no_mangle)]
pub extern "C" fn kbd48_open_hex(
    alloc: Global,
    text: &[u8],
    handle: &mut Handle,
    fault: &mut Fault,
) -> i32
    ensures opened { result ≡ done → HasOpenedHex false text.now handle.new.keyboard }
    ensures refused { (result ≡ done → ⊥) → handle.new.keyboard ≡ handle.old.keyboard }
    ensures fault { result ≡ bad_text → IsHexFault text.now fault.new }
    ensures long { 16384 < length text.now → result ≡ too_long }
    ensures only { result ≡ too_long → 16384 < length text.now }
    ensures status { (result ≡ done) ⊎ (result ≡ no_memory) ⊎ (result ≡ bad_text) ⊎ (result ≡ too_long) }
    ensures untouched { (result ≡ bad_text → ⊥) → fault.new ≡ fault.old }
    ensures faulty { (h : HexFault) → hex_of text.now ≡ Err h → (result ≡ bad_text) ⊎ (result ≡ too_long) }
{
    open_hex(alloc, text, false, handle, fault)
}

/// Opens a keyboard of a layout, from its text of at most 65,536 bytes, and closes the one that was there.
#[unsafe(no_mangle)]
pub extern "C" fn kbd48_open_layout(
    alloc: Global,
    text: &[u8],
    handle: &mut Handle,
    fault: &mut Fault,
) -> i32
    ensures opened { result ≡ done → HasOpenedLayout false text.now handle.new.keyboard }
    ensures refused { (result ≡ done → ⊥) → handle.new.keyboard ≡ handle.old.keyboard }
    ensures fault { result ≡ bad_text → IsLayoutFault text.now fault.new }
    ensures long { 65536 < length text.now → result ≡ too_long }
    ensures only { result ≡ too_long → 65536 < length text.now }
    ensures status { (result ≡ done) ⊎ (result ≡ no_memory) ⊎ (result ≡ bad_text) ⊎ (result ≡ too_long) }
    ensures untouched { (result ≡ bad_text → ⊥) → fault.new ≡ fault.old }
    ensures garbled { length text.now ≤ 65536 → is_utf8 text.now ≡ false → result ≡ bad_text }
{
    open_layout(alloc, text, false, handle, fault)
}
