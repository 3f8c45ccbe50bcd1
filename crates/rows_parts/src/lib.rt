//! Tests of what the program can't show: a part that holds anything when it is switched on, the names in the kernel's source,
//! the controller's end of the link and its wires cycle by cycle, the model's log for any tick starts, writers that take a
//! byte at a time. What it can show is a worked row, which is run over the program.
//!
//! They are in one crate, so that no layer is proved twice for its tests. Expected values were worked out by hand from the
//! rules in `docs/`, or come from the manuals; none is the program's own output.
#![tactic(auto)]

#[cfg(test)]
mod any_memory;
#[cfg(test)]
mod board;
#[cfg(test)]
mod controller;
#[cfg(test)]
mod edge;
#[cfg(test)]
mod histories;
#[cfg(test)]
mod instructions;
#[cfg(test)]
mod interrupt;
#[cfg(test)]
mod kernel;
#[cfg(test)]
mod labels;
#[cfg(test)]
mod lines;
#[cfg(test)]
mod link;
#[cfg(test)]
mod stepping;
#[cfg(test)]
mod tables;
#[cfg(test)]
mod turns;
#[cfg(test)]
mod typing_hi;
#[cfg(test)]
mod waiting;
#[cfg(test)]
mod wires;
