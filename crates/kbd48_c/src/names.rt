//! Keys by their names, and the sample layout.

ghost use Rattle.std.specs.Prelude.{◌≡◌, ◌≤◌, ◌<◌, ◌⊎◌, true, false, length, None};
ghost use Rattle.std.specs.Str.{is_utf8};
ghost use Rattle.fw_compile.specs.Image.{image_of};
ghost use Rattle.layout_reader.specs.Layouts.{us84};
ghost use Rattle.pc_tables.specs.Keys.{key_with_name};
ghost use Rattle.kbd48_c.specs.Names.{HasFault, IsKeyAt, no_such_key, place_named, place_or, place_status};
ghost use Rattle.kbd48_c.specs.Opening.{HasOpened};
ghost use Rattle.kbd48_c.specs.Statuses.{bad_text, done, no_memory, too_long};

use crate::handle::Handle;
use crate::opening::{MOST_LAYOUT, is_text, open};
use crate::status::{BAD_TEXT, DONE, NO_MEMORY, NO_SUCH_KEY, TOO_LONG};
use board_terms::Place;
use fw_compile::compile;
use layout_reader::{LayoutFault, read_layout, us84_layout};
use pc_tables::key_spelled;
use std::alloc::Global;

/// Writes a place, if there is one.
fn put_place(found: Option<Place>, place: &mut u8) -> i32
    ensures place { place.new ≡ place_or found place.old }
    ensures status { result ≡ place_status found }
{
    match found {
        Some(at) => {
            *place = at.number();
            DONE
        }
        None => NO_SUCH_KEY,
    }
}

/// Opens a keyboard of the sample layout, us84, at the handle, and closes the one that was there: at stamp 0, or ready.
fn open_sample(alloc: Global, ready: bool, handle: &mut Handle) -> i32
    ensures opened { result ≡ done → HasOpened ready (image_of us84) handle.new.keyboard }
    ensures refused { (result ≡ done → ⊥) → handle.new.keyboard ≡ handle.old.keyboard }
    ensures status { (result ≡ done) ⊎ (result ≡ no_memory) }
{
    match us84_layout(alloc) {
        Ok(layout) => open(alloc, &compile(&layout), ready, handle),
        Err(_) => NO_MEMORY,
    }
}

/// Opens a keyboard of the sample layout, us84, at the handle, and closes the one that was there.
#[unsafe(no_mangle)]
pub extern "C" fn kbd48_open_sample(alloc: Global, handle: &mut Handle) -> i32
    ensures opened { result ≡ done → HasOpened false (image_of us84) handle.new.keyboard }
    ensures refused { (result ≡ done → ⊥) → handle.new.keyboard ≡ handle.old.keyboard }
    ensures status { (result ≡ done) ⊎ (result ≡ no_memory) }
{
    open_sample(alloc, false, handle)
}

/// Opens a keyboard of the sample layout, as `kbd48_open_sample` does, and runs it on until the interrupt line rises, or for
/// a second.
#[unsafe(no_mangle)]
pub extern "C" fn kbd48_open_ready_sample(alloc: Global, handle: &mut Handle) -> i32
    ensures opened { result ≡ done → HasOpened true (image_of us84) handle.new.keyboard }
    ensures refused { (result ≡ done → ⊥) → handle.new.keyboard ≡ handle.old.keyboard }
    ensures status { (result ≡ done) ⊎ (result ≡ no_memory) }
{
    open_sample(alloc, true, handle)
}

/// The number of the key with this name, which is its place in the sample layout.
#[tactic(auto, using(crate::proofs::SampleKeys::sample_places))]
#[unsafe(no_mangle)]
pub extern "C" fn kbd48_sample_key(name: &[u8], place: &mut u8) -> i32
    ensures place { place.new ≡ place_or (key_with_name name.now) place.old }
    ensures status { result ≡ place_status (key_with_name name.now) }
    ensures sample { place_named name.now us84 ≡ key_with_name name.now }
{
    match key_spelled(name) {
        Some(key) => {
            *place = key.number();
            DONE
        }
        None => NO_SUCH_KEY,
    }
}

/// The place of the key with this name in a layout, from its text of at most 65,536 bytes. A text that is too long, a name
/// that no key has, and then a text that is no UTF-8 are refused before memory is taken.
#[tactic(auto, using(crate::proofs::Texts::has_fault))]
#[unsafe(no_mangle)]
pub extern "C" fn kbd48_layout_key(alloc: Global, text: &[u8], name: &[u8], place: &mut u8) -> i32
    ensures found { IsKeyAt text.now name.now place.old result place.new }
    ensures faulty { result ≡ bad_text → HasFault text.now }
    ensures long { 65536 < length text.now → result ≡ too_long }
    ensures only { result ≡ too_long → 65536 < length text.now }
    ensures unknown { length text.now ≤ 65536 → key_with_name name.now ≡ None → result ≡ no_such_key }
    ensures garbled { length text.now ≤ 65536 → is_utf8 text.now ≡ false → (result ≡ bad_text) ⊎ (result ≡ no_such_key) }
{
    if text.len() > MOST_LAYOUT {
        return TOO_LONG;
    }
    let Some(key) = key_spelled(name) else {
        return NO_SUCH_KEY;
    };
    if !is_text(text) {
        return BAD_TEXT;
    }
    match read_layout(alloc, text) {
        Ok(layout) => put_place(layout.place_of(key), place),
        Err(
            LayoutFault::Entry {
                entry: _,
                number: _,
            },
        ) => BAD_TEXT,
        Err(LayoutFault::Memory) => NO_MEMORY,
    }
}
