//! What is on the keyboard's board, as far as every layer above names it: the places of the key matrix, the matrix
//! itself, the two wires with the frame that a byte is on them, the events from outside, and the even time of ticks.
//!
//! The matrix has 12 columns of 8 rows with a diode per key. This layer knows places, wires and stamps. It knows no
//! key, no code, no processor and no controller: which key is at a place is up to the layout, and what is done with
//! a byte is up to who receives it. Source: our own, but for the frame, which is that of the PC/AT Technical Reference.
#![tactic(auto)]

mod event;
mod frame;
mod laws;
mod lines;
mod matrix;
mod place;
mod time;
mod transfer;

pub use event::{Edge, HostAct, HostEvent};
pub use frame::{Frame, byte_of, frame_of};
pub use laws::{edges_shown, first_edges_shown};
pub use lines::{HIGH, Lines};
pub use matrix::Matrix;
pub use place::Place;
pub use time::{STAMP_0, TICK_CYCLES};
pub use transfer::Transfer;
