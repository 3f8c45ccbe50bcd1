//! The keyboard's memory and blocks: what data memory means as the model's keyboard, and that each block of the tick
//! does a step of the model.
//!
//! This layer knows the kernel's cells and places, and the model's keyboard. It must not know the controller, the bits
//! of a frame, or the wires beyond the levels at the pins. Its laws hold for every image that has the kernel's bytes
//! outside the layout's tables, and for every board beside the processor: the laws that a contract can name are on
//! functions here; the others are lemmas, which the layers above cite. Our own.
#![tactic(auto)]

mod frameless_ticks;
mod resetting;

pub use frameless_ticks::{bare_kernel, every_frameless_tick, power_on};
pub use resetting::any_reset;
