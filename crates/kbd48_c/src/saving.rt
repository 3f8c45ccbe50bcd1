//! A keyboard as bytes in a buffer of the caller's, and back.

ghost use Rattle.std.specs.Prelude.{◌≡◌, ◌≤◌, ◌<◌, ◌++◌, drop, length};
ghost use Rattle.kbd48_c.specs.Saving.{HasFilled, HasLoaded, HasSaved, bad_size, unloaded_status};

use crate::handle::Handle;
use crate::status::{BAD_SIZE, BAD_STATE, DONE, NO_MEMORY, NOT_OPEN, NOT_SAVED, OTHER_VERSION};
use live_board::{Keyboard, SAVED, Unloaded};
use std::alloc::Global;

/// The status of bytes that were refused.
fn unloaded_status(fault: Unloaded) -> i32
    ensures { result ≡ unloaded_status fault }
{
    match fault {
        Unloaded::Length => BAD_SIZE,
        Unloaded::Format => NOT_SAVED,
        Unloaded::Version => OTHER_VERSION,
        Unloaded::Counts => BAD_STATE,
        Unloaded::Keys => BAD_STATE,
        Unloaded::Processor => BAD_STATE,
        Unloaded::Link => BAD_STATE,
        Unloaded::State => BAD_STATE,
        Unloaded::Memory => NO_MEMORY,
    }
}

/// Writes bytes at the beginning of a buffer that has room for them.
pub(crate) fn put(bytes: &[u8], buffer: &mut [u8])
    requires room { length bytes.now ≤ length buffer.old }
    ensures { buffer.new ≡ bytes.now ++ drop (length bytes.now) buffer.old }
{
    buffer[..bytes.len()].copy_from_slice(bytes);
}

/// Writes the keyboard's bytes at the beginning of the buffer, if it is long enough.
fn save(keyboard: &Keyboard, buffer: &mut [u8]) -> i32
    ensures filled { 3077 ≤ length buffer.old → HasFilled keyboard.now buffer.old result buffer.new }
    ensures short { length buffer.old < 3077 → (result ≡ bad_size) × (buffer.new ≡ buffer.old) }
{
    if buffer.len() < SAVED {
        return BAD_SIZE;
    }
    put(keyboard.save().as_slice(), buffer);
    DONE
}

/// Puts the keyboard of these bytes at the handle, and closes the one that was there.
fn load(alloc: Global, handle: &mut Handle, bytes: &[u8]) -> i32
    ensures loaded { HasLoaded bytes.now handle.old.keyboard result handle.new.keyboard }
{
    match Keyboard::load(alloc, bytes) {
        Ok(keyboard) => match Box::new(alloc, keyboard) {
            Ok(keyboard) => {
                *handle = Handle::holding(keyboard);
                DONE
            }
            Err(_) => NO_MEMORY,
        },
        Err(fault) => unloaded_status(fault),
    }
}

/// Writes the keyboard's 3,077 bytes at the beginning of the buffer. A shorter buffer stays as it is.
#[unsafe(no_mangle)]
pub extern "C" fn kbd48_save(alloc: Global, handle: &mut Handle, buffer: &mut [u8]) -> i32
    ensures saved { HasSaved handle.old.keyboard buffer.old result buffer.new }
    ensures unchanged { handle.new.keyboard ≡ handle.old.keyboard }
{
    match handle.take(alloc) {
        Some(keyboard) => {
            let status = save(&keyboard, buffer);
            *handle = Handle::holding(keyboard);
            status
        }
        None => NOT_OPEN,
    }
}

/// Opens the keyboard that these bytes mean at the handle, and closes the one that was there. If they mean none, the
/// handle is as it was.
#[unsafe(no_mangle)]
pub extern "C" fn kbd48_load(alloc: Global, handle: &mut Handle, bytes: &[u8]) -> i32
    ensures loaded { HasLoaded bytes.now handle.old.keyboard result handle.new.keyboard }
{
    load(alloc, handle, bytes)
}
