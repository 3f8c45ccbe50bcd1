//! A processor of the MCS-48 with its program, for a board that gives it levels and takes its latches.
//!
//! This layer is `mcs48_core` as whoever builds a machine around it needs it: switched on with a program, reset by its pin,
//! and stepped, with the levels at all of its pins in, and its latches and the step's cycles out. It knows no board, no wire
//! and no time: the caller puts the latches onto pins, and lets as many cycles pass as a step takes. Our own.
#![tactic(auto)]

mod chip;
mod saving;

pub use chip::Chip;
pub use saving::Saved;
