//! The joint run of a history: its events are handed to the joint machine as they come near.
//!
//! This layer knows a history and the joint machine from outside, and keeps how many of the events are made and done,
//! and what the last step did. Of the firmware it knows one place, `TICK`, at which a tick starts (`specs/Stories`):
//! where a run ends and what is kept of it is up to the layers above. Source: our own.
#![tactic(auto)]

mod ahead;
mod course;
mod event;

pub use course::Course;
