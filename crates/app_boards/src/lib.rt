//! Any program on the board under a key file: its run, `board`, and a script over it, `debug` and `probe`.
//!
//! This layer knows what is said of such a run or script, and how it leaves the probes. It fetches no file. Source: our own.
#![tactic(auto)]

mod boarding;
mod debugging;

pub use boarding::run_board;
pub use debugging::debug;
