//! Frames of the firmware: what the kernel drives on both wires while a byte is sent or received, and what it keeps
//! meanwhile.
//!
//! This layer knows the kernel's cells and places in the blocks of a frame, and the cells that the wires speak of. It
//! must not know what memory means beyond the registers of a frame, the queue, commands, the host or a log. Its laws
//! hold for every image that has the kernel's bytes outside the layout's tables, under every list of edges and of
//! events; those of what the kernel drives hold for every board beside the processor, and are lemmas. Our own.
#![tactic(auto)]

mod frames;

pub use frames::{bare_kernel, frame_cut, frame_received, frame_sent};
