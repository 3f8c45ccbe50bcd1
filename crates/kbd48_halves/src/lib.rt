//! The two halves of a keyboard for C: the keyboard at its two wires, and the controller at its two wires and its two ports.
//! Each is a plain struct of the caller's.
//!
//! This layer is `kbd_half` and `ctl_half` as C sees them, with `edge_queue` for the keys. It needs no heap, and a half is no
//! more than its bytes. It knows no time: the caller lets as many cycles pass as a step of the keyboard takes, and numbers
//! them for the controller.
//! `c/kbd48_halves.h` is the same by hand, with the loop that joins the two. Our own.
#![tactic(auto)]

mod controller;
mod controller_at;
mod keyboard;
mod keyboard_at;
mod lending;
mod levels;
mod queueing;
