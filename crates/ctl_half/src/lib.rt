//! The keyboard controller at its two wires and its two ports, for a caller with a keyboard and a host of its own.
//!
//! This layer is the 8042 with its end of the link, as `ctl_wire` has it, the pins of its input port, and the bytes of its
//! state. A cycle is a look at the wires, then whatever the host does, then the settling. The caller counts the cycles, each 2.5 microseconds. It knows no
//! keyboard, no INT 09h and no interrupt controller. Source: PC/AT Technical Reference, keyboard controller.
#![tactic(auto)]

mod controller;
mod pins;
mod saving;

pub use controller::CtlHalf;
pub use saving::SavedController;
