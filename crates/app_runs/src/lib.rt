//! The run of a layout under a key file: `run`, `expect`, `trace` and `sample`.
//!
//! This layer knows what is said of such a run, line by line, and how it leaves the probes that look at it. It fetches no
//! file. Source: our own.
#![tactic(auto)]

mod latency;
mod reporting;
mod running;
mod sampling;
mod streaming;
mod tracing;

pub use latency::keys_are_printed_in_time;
pub use running::say_run;
pub use sampling::sample;
