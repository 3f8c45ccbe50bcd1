//! The keyboard controller's end of its link to the keyboard, cycle by cycle: when it takes its input, when it holds
//! the keyboard off, and when it asks it to take a byte.
//!
//! This layer knows the controller of bytes below it and the cycle. Of a byte that is under way it knows no more than
//! whether it may still be broken off: what is known of it is a type parameter, so the layer that drives the wires and
//! the one that counts whole bytes have these rules in common, and neither knows the other. It knows no wire, no host
//! and no keyboard. A cycle is one machine cycle of the keyboard's processor, 2.5 microseconds. Source: PC/AT Technical
//! Reference, keyboard controller; when the input is taken, and that a pull of the clock lasts 64 cycles at least, is
//! our own.
#![tactic(auto)]

mod link;
mod passing;
mod port;

pub use link::Link;
pub use passing::Passing;
pub use port::LinkEnd;
