//! The 8042, the keyboard controller of the PC/AT, as a machine of bytes: its buffers, its command byte, the commands
//! of port 64h and the translation to scan codes.
//!
//! This layer knows what a byte means that the host wrote or that the keyboard sent. It knows no wire, no bit on a wire
//! and no time: when the input is taken and when a byte has come, the layer above says. Bytes and ports are
//! hexadecimal. After the PC/AT Technical Reference, keyboard controller.
//!
//! For other programs: `Controller::resends`. The repository's own programs don't call it.
#![tactic(auto)]

mod command;
mod controller;
mod flags;
mod port;
mod translation;

pub use command::Parameter;
pub use controller::{Buffers, Controller, Did, Received};
pub use port::{Input, InputFull, Port};
pub use translation::translate;
