//! A processor as bytes, and the processor that bytes mean; and the numbers and truth values in them.
//!
//! This layer has a table of the processor's bytes but for data memory. A processor is read from what was written of it, and
//! bytes that mean none are refused. It knows no board and no file. Our own.
#![tactic(auto)]

mod numbers;
mod processor;

pub use numbers::{maybe_at, number_at, truth_at, word_at};
pub use processor::{processor_bytes, processor_in};
