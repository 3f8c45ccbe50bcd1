//! The tick starts of the firmware in a joint run, and what it means that such a run keeps its time.
//!
//! This layer knows the joint run and one place of the kernel, at which the service of the timer begins. It must not know
//! what a tick does, a layout, a frame or a log. Our own.
#![tactic(auto)]

mod at_start;

pub use at_start::at_tick;
