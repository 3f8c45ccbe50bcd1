//! The run of any program on the keyboard's board, joined to the controller and INT 09h, under a key history.
//!
//! This layer gives `run_loop`'s loop the image as it is, and an end at the end stamp: the run goes from power-on to
//! there, or to a byte that begins no instruction. It keeps no list of what is said: each line goes into a sink as it
//! arises, with its cycle as a stamp, since a program of which nothing is known has no ticks; or in place of the log the
//! two wires are put as they change, by `run_wires`. No model is beside such a run: what is said of it
//! is said of the machine alone. It makes no step itself, and knows no instruction and no rule of the keyboard. Source:
//! our own.
#![tactic(auto)]

mod board;
mod line;
mod reporting;

pub use board::{run_to, trace_to};
pub use run_loop::{End, Finished, ReadyRun};
