//! The subsystem as a whole: the run of a layout's compiled image under a key history, and the log's text.
//!
//! This layer reports the one joint run that `run_loop` makes, in which probes look at the state after each step. It
//! notes each tick start, and keeps what is said, with its tick, in a list, or puts it into a sink line by line, with no
//! list of events or of lines. It knows how the log is written. That the log is the one which the model expects is a law
//! of the layer below. It knows no instruction, no wire and no rule of the keyboard. Source: our own.
//!
//! For other programs: the counts `Ended::ports`, `Ended::words` and `Ended::beeps`. The repository's own programs
//! read the field.
#![tactic(auto)]

mod account;
mod counts;
mod ended;
mod engine;
mod law;
mod outcome;
mod printing;
mod putting;
mod reporting;
mod running;
mod starts;
mod ticking;

pub use counts::Counts;
pub use ended::Ended;
pub use engine::Engine;
pub use law::runs_are_expected;
pub use model_link::LogLine;
pub use outcome::Run;
pub use printing::print_log;
pub use running::run;
pub use ticking::tick_starts;
