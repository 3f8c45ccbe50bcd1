//! HEX files: the text form in which a program memory is kept and sent to a programmer.
//!
//! This layer knows characters, lines, records and places. It knows nothing of what the bytes in the memory mean.
//! The form is Intel HEX (Intel, Hexadecimal Object File Format Specification). That addresses stay in the one program
//! memory, so that an upper part must be 0000, and that a start address has no effect, is our own, as is the one
//! spelling that is written.
#![tactic(auto)]

mod fault;
mod memory;
mod progress;
mod reading;
mod record;
mod writing;

pub use fault::HexFault;
pub use reading::read_hex;
pub use writing::write_hex;
