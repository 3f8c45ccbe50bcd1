//! The keyboard as a model without a processor: what it queues, what it offers to the line, and what a tick makes of
//! it.
//!
//! This layer knows places and the codes of a layout in its two layers, the key queue, typematic, the commands and the self test's
//! length, and a tick as one step of all of them. It knows no instruction, no data memory, no wire, no controller and
//! no cycle: how a tick's meeting with the line comes about, and when its edges were made, is up to the layers above.
//! Source: IBM PC/AT Technical Reference, Keyboard. Counting the queue in bytes, entering codes whole, what is lost
//! until an overrun is reported, and the break that is finished after a cleared queue are our own, as is the tick.
#![tactic(auto)]

mod commands;
mod edge;
mod laws;
mod meeting;
mod queue;
mod scanning;
mod state;
mod ticking;
mod typematic;

pub use edge::TickEdge;
pub use laws::{queue_is_in_order, sent_once};
pub use meeting::Meeting;
pub use queue::Queue;
pub use state::TickModel;
