//! Joint steps one after another, as long as nothing outside the processor can change.
//!
//! Most steps of a run change the processor alone: the wires, the controller, the host and INT 09h stay as they are until
//! the next edge of a key, the next event, a read, the end of a pull, or a write of port 2. This layer knows up to which
//! cycle they stay (`still`), and makes the steps up to there by the processor's own step, with fixed wires and without a
//! look at what is outside (`stretch`); jumps of the processor to where it is are made many at once. Its law is
//! that these are joint steps. It knows no firmware: the place of the tick's instruction is an argument. It keeps no
//! history: the events that come near are handed in. Source: our own.
#![tactic(auto)]

mod going;
mod law;
mod still;
mod stretch;

pub use going::{NOWHERE, go_on};
pub use law::calls_are_joint_steps;
