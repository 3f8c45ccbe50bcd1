//! The times on the two wires of a keyboard: which are outside the manual's limits, and the periods of its clock.
//!
//! This layer knows levels at times, and the limits of the keyboard's clock, of data before its fall and of the host's hold
//! (PC/AT Technical Reference, keyboard interface). It knows no byte and no controller. That eleven pulses are a frame, and
//! that a pause of 400 µs ends one, is all that it knows of frames.
#![tactic(auto)]

mod periods;
mod slip;
mod watch;

pub use periods::Periods;
pub use slip::{Slip, Slips};
pub use watch::Watch;
