//! Value change dumps (VCD): the levels of two wires of one, sample by sample.
//!
//! This layer knows the form of such a text (IEEE 1364): its unit of time, the names of its signals, and the changes of
//! their values. It reads two signals of one bit, which are named, and skips all others. It knows nothing of what the
//! wires say. It reads the text token by token as samples are asked for, so it takes no memory.
#![tactic(auto)]

mod body;
mod fault;
mod header;
mod keyword;
mod number;
mod part;
mod reader;
mod state;
mod token;
mod unit;

pub use fault::VcdFault;
pub use reader::Reader;
pub use state::Sample;
