//! The joint run: the keyboard's processor on its board, joined cycle by cycle to the controller, the host and INT 09h.
//!
//! This layer knows how the parts are wired: which pins read the matrix and the wires, which bits of port 2 drive the
//! wires and the lamps, what is done in a cycle and in which order. One call makes one joint step: one instruction or
//! one interrupt entry of the processor, with the one or two cycles that it takes. It knows no firmware and no tick:
//! the place of the tick's instruction is an argument of the definitions that speak of it. It keeps no history: the
//! events that are due are handed in. Board, clock and joint step are our own.
#![tactic(auto)]

mod due;
mod joint;
mod law;
mod machine;
mod outside;

pub use due::{Due, Seen};
pub use host_turn::Stamped;
pub use joint::Joint;
pub use law::starts_are_numbered;
pub use machine::Machine;
pub use outside::{Outside, lights};
