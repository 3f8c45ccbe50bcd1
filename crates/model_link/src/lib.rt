//! The link's model: what the port, INT 09h and the lights come to for a layout, a history and the starts of the ticks,
//! without a processor and without wires.
//!
//! This layer joins the keyboard as a machine of ticks to the controller in byte time: which tick sees an edge, what a
//! tick's meeting is, and which items are said in which tick. It knows no instruction, no data memory, no wire and no
//! sample of the matrix. Starts of ticks are given to it; cycle 4,096 is stamp 0. Source: our own.
#![tactic(auto)]

mod carrying;
mod debouncing;
mod expecting;
mod laws;
mod layering;
mod line;
mod lines;
mod running;
mod seeing;
mod whole;

pub use expecting::expect;
pub use laws::{cycle_by_cycle, each_seen_once, edges_shown, layers_follow};
pub use line::LogLine;
