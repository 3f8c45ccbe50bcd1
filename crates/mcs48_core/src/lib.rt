//! The processor of the MCS-48: its state, reset, one step, and the text that shows a state.
//!
//! This layer is the 8049 of the MCS-48 Family User's Manual: 2,048 bytes of program, 128 of data, timer and counter,
//! two interrupts, two ports and the bus. It knows a program memory, its own state and the levels at its pins in one
//! step. It knows no board: what is wired to the pins, and how long a cycle is, are the layers above.
#![tactic(auto)]

mod arithmetic;
mod control;
mod flow;
mod law;
mod leaping;
mod levels;
mod moves;
mod ports;
mod processor;
mod registers;
mod resetting;
mod stepping;
mod text;
mod timer;

pub use law::a_path_of_thirty_six_instructions;
pub use levels::{ALL_HIGH, Pins};
pub use processor::{Count, Mcu};
pub use resetting::reset;
pub use stepping::Stuck;
pub use text::{state_line, state_text};
