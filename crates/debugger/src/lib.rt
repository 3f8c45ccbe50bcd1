//! The debugger of a run: the lines of a script that makes it step by step, while probes look at each of its steps.
//!
//! This layer knows the joint machine from outside: its processor, its counts, and where a tick starts. It knows a list of
//! probes, the lines of a script, and what each prints. It knows no rule of the keyboard, the controller or the host.
//! Source: our own.
#![tactic(auto)]

mod command;
mod debuggee;
mod law;
mod listed;
mod obeying;
mod rule;
mod script;
mod scripted;
mod session;
mod stepping;
mod striding;
mod texts;

pub use debuggee::Debuggee;
pub use law::probes_count;
pub use rule::{LineFault, SessionFault};
pub use run_probes::{
    AddressProbe, CellProbe, LineDecoder, LineProbe, Probe, RegisterProbe, Tally,
};
pub use script::check_script;
pub use scripted::obey_script;
pub use session::Session;
