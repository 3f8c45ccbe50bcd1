//! Until when the PC beside its keyboard controller sleeps: a cycle up to which nothing happens there and nothing is said,
//! as long as nothing comes over the link.
//!
//! This layer knows the host's next event, the read of INT 09h, the controller's input and the pulls of its clock, each by
//! the first cycle in which it may come. Of a byte under way it knows no more than whether it may be broken off: so the
//! wires and byte time have one bound in common, and neither knows the other. Source: our own.
#![tactic(auto)]

mod waking;

pub use waking::{first_stir, sleeps_to};
