//! The lines of key files, as they are written.
//!
//! This layer writes a line: a key goes down or up, a word alone, or a comment. It knows stamps, words, the names of
//! keys, the entries of a layout, and at which pace strokes follow one another. Its proofs say that a reader of key files
//! reads such a line back. It doesn't know which lines a file has, nor why. Source: our own.
#![tactic(auto)]

mod lines;
mod strokes;

pub use lines::{push_comment, push_press, push_release, push_word};
pub use strokes::{FIRST_STROKE, HELD, STROKE, TAKEN};
