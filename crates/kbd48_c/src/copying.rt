//! A keyboard and its copy.

ghost use Rattle.std.specs.Prelude.{◌≡◌, None};
ghost use Rattle.kbd48_c.specs.Copies.{CopiesTo, HasCopied, IsTwin};

use crate::handle::Handle;
use crate::status::{DONE, NO_MEMORY, NOT_OPEN};
use live_board::Keyboard;
use std::alloc::Global;

/// Puts a copy of this keyboard at the empty handle.
fn put_copy(alloc: Global, keyboard: &Keyboard, to: &mut Handle) -> i32
    requires empty { to.old.keyboard ≡ None }
    ensures copied { HasCopied keyboard.now to.old.keyboard result to.new.keyboard }
{
    match keyboard.copied(alloc) {
        Ok(copy) => match Box::new(alloc, copy) {
            Ok(copy) => {
                *to = Handle::holding(copy);
                DONE
            }
            Err(_) => NO_MEMORY,
        },
        Err(_) => NO_MEMORY,
    }
}

/// A keyboard becomes the copy of another.
fn assign(copy: &mut Keyboard, keyboard: &Keyboard)
    ensures twin { IsTwin keyboard.now copy.new }
{
    copy.assign(keyboard);
}

/// Puts a copy of this keyboard at the handle. If it has a keyboard, that becomes the copy, and no memory is taken.
fn copy_to(alloc: Global, keyboard: &Keyboard, to: &mut Handle) -> i32
    ensures copied { HasCopied keyboard.now to.old.keyboard result to.new.keyboard }
{
    match to.take(alloc) {
        Some(mut copy) => {
            assign(&mut *copy, keyboard);
            *to = Handle::holding(copy);
            DONE
        }
        None => put_copy(alloc, keyboard, to),
    }
}

/// Puts a copy of the keyboard of one handle at another, in place of the one that was there. Memory is taken only if the
/// other is empty.
#[unsafe(no_mangle)]
pub extern "C" fn kbd48_copy(alloc: Global, from: &mut Handle, to: &mut Handle) -> i32
    ensures copied { CopiesTo from.old.keyboard to.old.keyboard result to.new.keyboard }
    ensures unchanged { from.new.keyboard ≡ from.old.keyboard }
{
    match from.take(alloc) {
        Some(keyboard) => {
            let status = copy_to(alloc, &keyboard, to);
            *from = Handle::holding(keyboard);
            status
        }
        None => NOT_OPEN,
    }
}
