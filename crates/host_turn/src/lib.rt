//! The PC beside its keyboard controller, cycle by cycle: what the host does in a cycle, when INT 09h reads a byte, and
//! one cycle of all that goes on once it is known what came over the link.
//!
//! This layer knows the controller with its end of the link, the host's events with their stamps, the host's mask and
//! INT 09h. Of a byte under way it knows no more than whether it may still be broken off: what is known of it is a type
//! parameter. It knows no wire and no key; of the keyboard it knows the lights that are shown, of a history the host's
//! events (`specs/Run`). A cycle is 2.5 microseconds; cycle 4,096 is stamp 0. Source: PC/AT Technical Reference, the
//! ports of the keyboard controller and the keyboard's interrupt; one event a cycle, and the read 64 cycles after the
//! filling at the earliest, are our own.
#![tactic(auto)]

mod desk;
mod events;
mod reading;
mod stamped;

pub use desk::Desk;
pub use stamped::Stamped;
