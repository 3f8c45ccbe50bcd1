//! A queue of edges as bytes, and the queue that bytes mean.
//!
//! This layer has the table of these bytes (`specs/Saved`). A queue is read from what was written of it, and bytes that mean
//! no queue are refused by the first thing that they lack. It takes no memory. It knows no keyboard that runs and no call of
//! C. Our own.
#![tactic(auto)]

mod keys;
mod loading;
mod no_queue;
mod saving;

pub use loading::load;
pub use no_queue::NoQueue;
pub use saving::{SAVED_QUEUE, save};
