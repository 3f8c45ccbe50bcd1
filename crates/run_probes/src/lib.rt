//! Probes that look at each step of a run, and the bytes that are read from its two wires.
//!
//! This layer knows the joint machine from outside: its processor, its counts and its two wires. It knows what a probe is
//! and four kinds of it, and how bytes are read from the wires by the falls of the clock. It knows no session and no
//! script, and no rule of the keyboard, the controller or the host. Source: our own.
#![tactic(auto)]

mod decoder;
mod heard;
mod kinds;
mod law;
mod listening;
mod probe;
mod resting;
mod tally;

pub use decoder::LineDecoder;
pub use kinds::{AddressProbe, CellProbe, RegisterProbe};
pub use law::{looks_count, transfers_are_heard};
pub use listening::LineProbe;
pub use probe::{Probe, look_all};
pub use resting::all_rest;
pub use tally::Tally;
