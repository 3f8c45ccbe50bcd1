//! A queue of edges of keys: it hands each over as soon as the keyboard can see it, in the order in which they happened.
//!
//! The keyboard looks at its keys once a tick, takes those that changed in the order of their places, and sends one byte
//! from one look to the next. So a key that goes down and up between two looks isn't seen, and two edges between two
//! looks may change their order. With a debounce a key changes only when two looks in a row show it so. This layer holds
//! each edge back until the one before it has had its time (`specs/Queue`). It knows places, edges and stamps. It knows no code, no processor and no controller. It takes no
//! memory, and the structs are C's too. Source: our own.
//!
//! For other programs: `EdgeQueue::is_down`. The repository's own programs don't call it.
#![tactic(auto)]

mod laws;
mod queue;
mod refusal;
mod taking;

pub use laws::edges_are_lawful;
pub use queue::{EdgeQueue, Pushed};
pub use refusal::NotQueued;
