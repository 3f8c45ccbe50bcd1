//! The run of a program under a history, from power-on to its end: one loop for whoever reports it.
//!
//! This layer has the run of a program, or of a layout's compiled image, at power-on. It knows where a run ends, makes its
//! steps one after another as long as nothing of them has to be reported, lets probes look at each state, and leaves what
//! is reported to whoever reports it. It puts the items that a step says into a sink; how the line of an item is written is up to the reporter.
//! Its definitions say what it is that a text which is reported breaks off. Of the firmware it knows where a tick starts,
//! by `fw_ticks`. That a run which ends at a tick start keeps its time is a premise here. Source: our own.
#![tactic(auto)]

mod ending;
mod finished;
mod gliding;
mod putting;
mod ready;
mod reporting;
mod stretching;

pub use ending::{End, Ending, Halt};
pub use finished::Finished;
pub use putting::{ItemLine, put_items};
pub use ready::ReadyRun;
pub use reporting::Reporter;
