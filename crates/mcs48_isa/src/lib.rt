//! The instruction set of the MCS-48: which bytes are which operation, and how an operation is written.
//!
//! This layer is the opcode table of the MCS-48 Family User's Manual (8049 profile: no rows of the 8041 and 8042,
//! no external program memory). It knows bytes and operations. It knows no register, no flag and no cycle of a run:
//! what an operation does to a processor is the layer above.
//!
//! For other programs: `encode` and `op_text`. The repository's own programs don't call them.
#![tactic(auto)]

mod decoding;
mod encoding;
mod image;
mod listing;
mod op_texts;
mod operation;

pub use decoding::{decode, row};
pub use encoding::encode;
pub use image::{Image, PLACES};
pub use listing::list;
pub use op_texts::op_text;
pub use operation::{AluOp, Code, ControlOp, Decoded, FlowOp, MoveOp, Op, PortOp, Row, UnaryOp};
