//! INT 09h: what the BIOS makes of the bytes that it reads from the keyboard controller.
//!
//! This layer is nine rules in their order (our own, after the BIOS of the PC/AT Technical Reference). It knows the
//! bytes of port 60h, the bytes at 40:17 and 40:18, and the buffer of 15 words. It knows no controller and no time:
//! when a byte is read, and that `port` is said of it, is up to the layers above.
//!
//! For other programs: `Bios::flags`. The repository's own programs don't call it.
#![tactic(auto)]

mod bios;
mod flags;
mod keys;
mod rules;
mod said;

pub use bios::{Bios, Flags9};
