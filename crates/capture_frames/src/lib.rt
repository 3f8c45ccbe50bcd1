//! What happens on the two wires of a keyboard: pulses of the clock, and the frames that they are.
//!
//! This layer knows levels at times, and the form of a frame: eleven falls of the clock, start 0, eight data bits with
//! the lowest first, odd parity, stop 1; a pull of the clock by the host, and its request to send (PC/AT Technical
//! Reference, keyboard interface). It knows no scan code, no controller, and no file. It names what is wrong with a
//! frame, and goes on with the next one.
#![tactic(auto)]

mod ear;
mod finding;
mod frame_bits;
mod listener;
mod pulse;

pub use ear::Said;
pub use finding::{Finding, Timed, Whole};
pub use listener::Listener;
