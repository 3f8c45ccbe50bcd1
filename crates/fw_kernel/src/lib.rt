//! The kernel: the keyboard's firmware but for the layout's tables, as bytes and as the text that gives them.
//!
//! This layer knows the board that the firmware is written for, an 8049 at 6 MHz: the clock wire at P2.0 and T0, the
//! data wire at P2.1 and T1, the lights Scroll, Num and Caps at P2.4 to P2.6, the columns at the low nibble of port 1
//! and their rows at the bus. It must not know a layout, the controller or a stepper. The firmware is our own.
//!
//! **The frame.** A tick is 2,048 cycles and begins with the instruction at `TICK`. The main program waits at `WAIT`
//! with the timer's interrupt enabled, and register bank 1 is selected for good. The work of a tick is the
//! interrupt's service and ends with RETR. Its first instructions write the timer anew while the prescaler goes on,
//! so that the overflows are exactly 2,048 cycles apart however long the work takes; the loop at `WAIT` takes two
//! cycles, so a tick starts in the cycle of its multiple of 2,048 or in the next. No block of the tick makes a call
//! or returns. Places 300 to 3CD and 3F2 (hexadecimal) are the layout's and hold no code: its codes are at 300, its
//! rate is at 360, the codes of the second layer follow from 361 on, and 3F2 says whether its keys are debounced. At
//! 3CE to 3F1 are the delays and periods that MOVP3 reads.
//!
//! **A tick** reads the twelve columns, finds what is to be sent, puts the lights, and looks at both wires. If the
//! power-on test runs it counts one of the test's ticks. Otherwise it sends a byte, receives one, or does neither. Then
//! what was sent goes from where it was, or the command is obeyed; the repeating key is counted; and the edges, debounced
//! if the layout says so, enter the queue in the order of their places.
//!
//! **What is proved of it** is above. Here are bytes, labels and a text, and no function, so this crate's own check
//! refuses none of them. `law_fw_logic` proves what is at `TICK` and what the blocks do, `law_fw_keys`, `law_fw_link` and
//! `law_agreement` what whole ticks do, by these very bytes; a test of `rows_parts` assembles the text to them.
#![tactic(auto)]

mod bytes;
pub mod cells;
pub mod labels;
mod text;

pub use bytes::KERNEL;
pub use labels::{TICK, WAIT};
pub use text::SOURCE;
