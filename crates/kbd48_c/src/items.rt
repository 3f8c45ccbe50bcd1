//! What happened since the caller was last handed something.

ghost use Rattle.std.specs.Prelude.{◌≡◌, None};
ghost use Rattle.kbd48_c.specs.Exports.{Through, held_status, shown_of};
ghost use Rattle.kbd48_c.specs.Items.{HasHandedOut, item_after, next_status, said_of};
ghost use Rattle.kbd48_c.specs.Statuses.{done};

use crate::handle::Handle;
use crate::status::{DONE, LOST, NOT_OPEN, NOTHING_SAID};
use joint_bytes::{what_kind, what_value};
use live_board::{Keyboard, Next};
use live_items::Happened;
use std::alloc::Global;

/// What happened: the cycle in which it did, its kind, and its byte or word.
#[repr(C)]
#[derive(Drop)]
pub struct Said {
    pub cycle: u64,
    pub kind: u8,
    pub value: u16,
}

/// What happened, as C has it.
fn as_said(it: Happened) -> Said
    ensures { result ≡ said_of it }
{
    Said {
        cycle: it.cycle,
        kind: what_kind(it.what),
        value: what_value(it.what),
    }
}

/// What is handed out, if something is, and the status that says so.
fn put_item(next: Next, item: &mut Said) -> i32
    ensures is_status { result ≡ next_status next }
    ensures handed { item.new ≡ item_after next item.old }
{
    match next {
        Next::Said(it) => {
            *item = as_said(it);
            DONE
        }
        Next::Lost(_) => LOST,
        Next::Nothing => NOTHING_SAID,
    }
}

/// What happened next.
fn put_next(keyboard: &mut Keyboard, item: &mut Said) -> i32
    ensures handed { HasHandedOut item.old item.new keyboard.old result keyboard.new }
{
    let next = keyboard.hand_out();
    put_item(next, item)
}

/// Hands out what happened next since something was last handed out.
#[unsafe(no_mangle)]
pub extern "C" fn kbd48_next(alloc: Global, handle: &mut Handle, item: &mut Said) -> i32
    ensures handed { Through (HasHandedOut item.old item.new) handle.old.keyboard result handle.new.keyboard }
    ensures none { handle.old.keyboard ≡ None → item.new ≡ item.old }
{
    match handle.take(alloc) {
        Some(mut keyboard) => {
            let status = put_next(&mut *keyboard, item);
            *handle = Handle::holding(keyboard);
            status
        }
        None => NOT_OPEN,
    }
}

/// How many items were lost after those that are kept, and weren't reported yet.
#[unsafe(no_mangle)]
pub extern "C" fn kbd48_lost(alloc: Global, handle: &mut Handle, lost: &mut u64) -> i32
    ensures lost { lost.new ≡ shown_of (λ k. k.heard.lost) handle.old.keyboard lost.old }
    ensures unchanged { handle.new.keyboard ≡ handle.old.keyboard }
    ensures status { result ≡ held_status done handle.old.keyboard }
{
    match handle.take(alloc) {
        Some(keyboard) => {
            *lost = keyboard.lost();
            *handle = Handle::holding(keyboard);
            DONE
        }
        None => NOT_OPEN,
    }
}

/// How many times the interrupt line rose in the last run, which may be of no step, or in the last call of the host's that
/// wasn't refused.
#[unsafe(no_mangle)]
pub extern "C" fn kbd48_rises(alloc: Global, handle: &mut Handle, rises: &mut u64) -> i32
    ensures rises { rises.new ≡ shown_of (λ k. k.rises) handle.old.keyboard rises.old }
    ensures unchanged { handle.new.keyboard ≡ handle.old.keyboard }
    ensures status { result ≡ held_status done handle.old.keyboard }
{
    match handle.take(alloc) {
        Some(keyboard) => {
            *rises = keyboard.rises();
            *handle = Handle::holding(keyboard);
            DONE
        }
        None => NOT_OPEN,
    }
}
