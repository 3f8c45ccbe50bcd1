//! The calls that go to an open keyboard and make one step, or none.

ghost use Rattle.std.specs.Prelude.{◌≡◌, None, IfOk, OnErr};
ghost use Rattle.board_terms.specs.declared.event.HostAct.TheVariants.{Read60, Status};
ghost use Rattle.live_board.specs.Acts.{masking_of};
ghost use Rattle.kbd48_c.specs.Exports.{HasActed, HasPressed, HasRead, HasTaken, HasWritten, Through, status_of};

use crate::handle::Handle;
use crate::status::{DONE, NO_SUCH_PLACE, NO_SUCH_PORT, NO_WORD, NOT_OPEN, refused_status};
use board_terms::Place;
use ctl_core::Port;
use live_board::{Keyboard, Refused};
use std::alloc::Global;

/// The status of a call that answers nothing else.
pub(crate) fn status_of(answer: Result<(), Refused>) -> i32
    ensures { result ≡ status_of answer }
{
    match answer {
        Ok(()) => DONE,
        Err(refused) => refused_status(refused),
    }
}

/// The key at a place, 0 to 95, goes down or up.
pub(crate) fn press(keyboard: &mut Keyboard, place: u8, down: bool) -> i32
    ensures pressed { HasPressed place down keyboard.old result keyboard.new }
    ensures joint { keyboard.new.joint ≡ keyboard.old.joint }
    ensures heard { keyboard.new.heard ≡ keyboard.old.heard }
{
    match Place::numbered(place) {
        Some(at) => status_of(keyboard.key(at, down)),
        None => NO_SUCH_PLACE,
    }
}

/// The host writes a byte to port 60h or 64h.
fn write_to(keyboard: &mut Keyboard, port: u8, byte: u8) -> i32
    ensures written { HasWritten port byte keyboard.old result keyboard.new }
{
    match port {
        0x60 => status_of(keyboard.write(Port::P60, byte)),
        0x64 => status_of(keyboard.write(Port::P64, byte)),
        _ => NO_SUCH_PORT,
    }
}

/// INT 09h reads from now on, or is masked.
fn set_bios(keyboard: &mut Keyboard, on: bool) -> i32
    ensures acted { HasActed (masking_of on) keyboard.old result keyboard.new }
{
    status_of(keyboard.bios(on))
}

/// The status of a read, which writes its byte if it was made.
fn put_read(answer: Result<u8, Refused>, byte: &mut u8) -> i32
    ensures status { result ≡ status_of answer }
    ensures byte { IfOk answer (λ b. byte.new ≡ b) × OnErr answer (byte.new ≡ byte.old) }
{
    match answer {
        Ok(read) => {
            *byte = read;
            DONE
        }
        Err(refused) => refused_status(refused),
    }
}

/// The host reads port 60h.
fn read_port(keyboard: &mut Keyboard, byte: &mut u8) -> i32
    ensures read { HasRead Read60 (λ t. t.read) byte.old byte.new keyboard.old result keyboard.new }
{
    put_read(keyboard.read60(), byte)
}

/// The host reads the status.
fn read_status(keyboard: &mut Keyboard, byte: &mut u8) -> i32
    ensures read { HasRead Status (λ t. t.status) byte.old byte.new keyboard.old result keyboard.new }
{
    put_read(keyboard.status(), byte)
}

/// A program takes the next word.
fn take_word(keyboard: &mut Keyboard, word: &mut u16) -> i32
    ensures taken { HasTaken word.old word.new keyboard.old result keyboard.new }
{
    match keyboard.take() {
        Ok(Some(taken)) => {
            *word = taken;
            DONE
        }
        Ok(None) => NO_WORD,
        Err(refused) => refused_status(refused),
    }
}

/// The key at a place, 0 to 95, goes down or up.
#[unsafe(no_mangle)]
pub extern "C" fn kbd48_key(alloc: Global, handle: &mut Handle, place: u8, down: bool) -> i32
    ensures pressed { Through (HasPressed place down) handle.old.keyboard result handle.new.keyboard }
{
    match handle.take(alloc) {
        Some(mut keyboard) => {
            let status = press(&mut *keyboard, place, down);
            *handle = Handle::holding(keyboard);
            status
        }
        None => NOT_OPEN,
    }
}

/// The host writes a byte to port 60h or 64h, in one joint step.
#[unsafe(no_mangle)]
pub extern "C" fn kbd48_write(alloc: Global, handle: &mut Handle, port: u8, byte: u8) -> i32
    ensures written { Through (HasWritten port byte) handle.old.keyboard result handle.new.keyboard }
{
    match handle.take(alloc) {
        Some(mut keyboard) => {
            let status = write_to(&mut *keyboard, port, byte);
            *handle = Handle::holding(keyboard);
            status
        }
        None => NOT_OPEN,
    }
}

/// INT 09h of this project reads from now on, or is masked. One joint step.
#[unsafe(no_mangle)]
pub extern "C" fn kbd48_bios(alloc: Global, handle: &mut Handle, on: bool) -> i32
    ensures acted { Through (HasActed (masking_of on)) handle.old.keyboard result handle.new.keyboard }
{
    match handle.take(alloc) {
        Some(mut keyboard) => {
            let status = set_bios(&mut *keyboard, on);
            *handle = Handle::holding(keyboard);
            status
        }
        None => NOT_OPEN,
    }
}

/// The host reads port 60h, in one joint step.
#[unsafe(no_mangle)]
pub extern "C" fn kbd48_read60(alloc: Global, handle: &mut Handle, byte: &mut u8) -> i32
    ensures read { Through (HasRead Read60 (λ t. t.read) byte.old byte.new)
        handle.old.keyboard result handle.new.keyboard }
    ensures none { handle.old.keyboard ≡ None → byte.new ≡ byte.old }
{
    match handle.take(alloc) {
        Some(mut keyboard) => {
            let status = read_port(&mut *keyboard, byte);
            *handle = Handle::holding(keyboard);
            status
        }
        None => NOT_OPEN,
    }
}

/// The host reads the status at port 64h, in one joint step.
#[unsafe(no_mangle)]
pub extern "C" fn kbd48_status(alloc: Global, handle: &mut Handle, byte: &mut u8) -> i32
    ensures read { Through (HasRead Status (λ t. t.status) byte.old byte.new)
        handle.old.keyboard result handle.new.keyboard }
    ensures none { handle.old.keyboard ≡ None → byte.new ≡ byte.old }
{
    match handle.take(alloc) {
        Some(mut keyboard) => {
            let status = read_status(&mut *keyboard, byte);
            *handle = Handle::holding(keyboard);
            status
        }
        None => NOT_OPEN,
    }
}

/// A program takes the next word from the buffer of INT 09h, in one joint step.
#[unsafe(no_mangle)]
pub extern "C" fn kbd48_take(alloc: Global, handle: &mut Handle, word: &mut u16) -> i32
    ensures taken { Through (HasTaken word.old word.new) handle.old.keyboard result handle.new.keyboard }
    ensures none { handle.old.keyboard ≡ None → word.new ≡ word.old }
{
    match handle.take(alloc) {
        Some(mut keyboard) => {
            let status = take_word(&mut *keyboard, word);
            *handle = Handle::holding(keyboard);
            status
        }
        None => NOT_OPEN,
    }
}
