//! The keyboard controller at its two wires, cycle by cycle: it looks at them, counts the falling edges of the clock,
//! and drives them.
//!
//! This layer knows the controller with its end of the link, the two wires and the frame of a byte. Its code knows no host
//! but the calls of the controller's ports. Its definitions have the host beside the controller too (`specs/Wires`): a cycle
//! of the PC's side by what the keyboard drives in it. It knows no keyboard and no processor. The keyboard supplies the clock in both
//! directions; the controller can only hold it low. A cycle is 2.5 microseconds. Source: PC/AT Technical Reference,
//! keyboard interface; that a falling clock is judged by the controller's own looks is our own.
//!
//! For other programs: `CtlWire`, the controller alone at its wires. The repository's own programs call the parts that
//! it is made of.
#![tactic(auto)]

mod bits_taken;
mod driving;
mod edges;
mod falling;
mod laws;
mod wire;
mod wired;

pub use bits_taken::Bits;
pub use driving::drive_of;
pub use edges::Edges;
pub use falling::fall;
pub use laws::pulls_last;
pub use wire::Wire;
pub use wired::CtlWire;
