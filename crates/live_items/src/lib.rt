//! What happens to a keyboard that runs as one goes: an item of its log, or a byte that passes over the two wires, with its
//! cycle.
//!
//! This layer has the types alone. It knows nothing of what makes them happen, and not how they are saved. Our own.
#![tactic(auto)]

mod happened;

pub use happened::{Happened, What};
