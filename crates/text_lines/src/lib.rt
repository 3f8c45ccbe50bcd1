//! Texts: their lines, the fields of a line, and the numbers that fields write.
//!
//! This layer knows characters, lines, fields and numbers, by which every file that a user writes is read. It knows no
//! file's form: which fields a line has, and what they mean, is up to the layers above. What it gives are slices of the
//! text itself, so it takes no memory, and each text is gone over once. Source: our own.
#![tactic(auto)]

mod blanks;
mod fields;
mod line;
mod numbers;
mod pieces;

pub use blanks::{is_blank, is_blank_line};
pub use fields::next_field;
pub use line::next_line;
pub use numbers::{decimal, decimal_digit, hexadecimal};
pub use pieces::{single, split_once};
