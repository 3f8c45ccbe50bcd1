//! What C holds: a pointer to a keyboard, or none.

ghost use Rattle.std.specs.Prelude.{◌≡◌, Option, None, Some};
ghost use Rattle.live_board.specs.declared.parts.Parts.{Parts as Keyboard};
ghost use Rattle.kbd48_c.specs.Held.{boxed, held_of};

use crate::pointer::BoxPointer;
use live_board::Keyboard;
use std::alloc::Global;
use std::marker::Model;

/// A pointer to a keyboard on the heap, or null.
#[repr(C)]
pub struct Handle {
    at: *mut u8,
    alloc: Global,
    ghost keyboard: { Option Keyboard },
}

impl Model for Handle {
    ghost use Rattle.kbd48_c.specs.Held.{held_at};

    ghost also_owns = { λ h. held_at h.alloc h.at h.keyboard };
}

impl Handle {
    /// No keyboard.
    pub(crate) fn none(alloc: Global) -> Handle
        ensures { result.keyboard ≡ None }
    {
        Handle {
            at: std::ptr::null_mut(),
            alloc,
        }
    }

    /// The keyboard of this pointer.
    fn of(pointer: BoxPointer<Keyboard, Global>) -> Handle
        ensures { result.keyboard ≡ Some pointer.value }
    {
        let BoxPointer { at, alloc } = pointer;
        Handle {
            at: at as *mut u8,
            alloc,
        }
    }

    /// The pointer of the keyboard, if there is one.
    fn into_pointer(self) -> Option<BoxPointer<Keyboard, Global>>
        ensures { held_of result ≡ self.keyboard }
    {
        let Handle { at, alloc } = self;
        if at.is_null() {
            return None;
        }
        Some(BoxPointer {
            at: at as *mut Keyboard,
            alloc,
        })
    }
}

impl Handle {
    /// This keyboard.
    pub(crate) fn holding(keyboard: Box<Keyboard>) -> Handle
        ensures { result.keyboard ≡ Some keyboard.value }
    {
        Handle::of(BoxPointer::of(keyboard))
    }

    /// The keyboard, if there is one; the handle is left empty.
    pub(crate) fn take(&mut self, alloc: Global) -> Option<Box<Keyboard>>
        ensures taken { boxed result ≡ self.old.keyboard }
        ensures left { self.new.keyboard ≡ None }
    {
        let was = std::mem::replace(self, Handle::none(alloc));
        match was.into_pointer() {
            Some(pointer) => Some(pointer.into_box()),
            None => None,
        }
    }
}

impl Drop for Handle {
    fn drop(self) {
        if let Some(pointer) = self.into_pointer() {
            drop(pointer.into_box());
        }
    }
}

unsafe impl std::marker::Send for Handle {}
