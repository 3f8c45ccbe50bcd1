//! Tests of the layers that run, of what the program can't show: the joint machine step by step, steps made at once, the
//! decoder of the wires, sessions with any number of probes, and any program beside the processor alone. What it can show is
//! a worked row, which is run over the program. They are in a crate of their own, so that no layer is proved twice for its
//! tests.
//!
//! Expected values come from the manuals, or were worked out by hand.
#![tactic(auto)]

#[cfg(test)]
mod alike;
#[cfg(test)]
mod frames;
#[cfg(test)]
mod joint_steps;
#[cfg(test)]
mod programs;
#[cfg(test)]
mod scripts;
#[cfg(test)]
mod steps_at_once;
