//! The two wires of a run as a value change dump (VCD), which viewers of waveforms open, with each byte that passes over
//! them as a comment. If it is asked for, a third signal is data as the controller sees it: noise turns bits there.
//!
//! This layer has `run_loop` make a run, of a layout's compiled image or of any program, and samples the wires after the
//! steps that change them. It knows how a change of the wires is written. What a transfer is, is reported by `run_probes`'s
//! decoder. It knows no instruction, no rule of the keyboard, the controller or the
//! host, and no log. Source: the format is that of IEEE 1364, value change dump; what is written in it is our own.
#![tactic(auto)]

mod change;
mod fault;
mod reporting;
mod sampling;
mod seen;
mod tracing;

pub use fault::TraceFault;
pub use sampling::put_sample;
pub use tracing::{put_trace, trace};
