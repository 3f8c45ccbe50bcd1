//! What was typed in a capture of the two wires of a keyboard, as the key file of a layout.
//!
//! The key file says which keys of the layout, pressed and released at the times of the capture, send the codes that the
//! capture has. This layer knows the findings on the wires, the codes of keys, layouts, and the queue that gives each
//! edge its time. It takes the keys of the first layer alone: a key that sends a code under Fn isn't looked for. It knows
//! no run. Which byte is which key's is our own rule; the codes are those of the PC/AT's keyboard.
#![tactic(auto)]

mod codes;
mod fault;
mod key_line;
mod key_text;
mod keys;
mod typing;

pub use fault::CaptureFault;
pub use typing::typed_keys;
