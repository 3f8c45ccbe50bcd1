//! What is said of a capture of the two wires of a keyboard: a line a finding, what a PC makes of the bytes, and a summary.
//!
//! This layer knows the dump's reader, the frames and the times on the wires, the controller's translation and INT 09h. It knows no
//! command and no file. Which byte reaches INT 09h, and how a line is written, is our own.
#![tactic(auto)]

mod capturing;
mod counts;
mod line;
mod receiver;
mod report;
mod speech;
mod summary;
mod timing;

pub use capturing::{Captured, capture};
