//! The keyboard at its two wires: its processor with a program, and its keys, without a PC.
//!
//! This layer knows the board of the keyboard: which pins read the matrix and the wires, and which bits of port 2 drive the
//! wires and the lamps. It also knows for how long nothing of a keyboard by itself changes that is seen. It knows no
//! controller, no host and no time. The caller gives the levels of clock and data in each step, takes what the keyboard
//! drives on them, and lets as many cycles pass as a step takes. A cycle is 2.5 microseconds. The board is that of the joint
//! run, and our own.
#![tactic(auto)]

mod keyboard;
mod resting;
mod saving;

pub use keyboard::KbdHalf;
pub use saving::SavedKeyboard;
