//! The keyboard alone and the controller alone, joined cycle by cycle, are the joint run.
//!
//! This layer is laws alone, over `kbd_half`, `ctl_half`, the turn of a host in a cycle and the joint run. Our own.
#![tactic(auto)]

mod law;

pub use law::halves_are_the_joint_run;
