//! The words of a call: the command that they give, the kinds of files that it names, and how a call may be refused and
//! end.
//!
//! This layer knows the words' forms, the limits of files, the lines of refusals and the exits. It knows no file, and nothing
//! of what a command does. Source: our own.
//!
//! For other programs: `form`. The repository's own programs read the words by what they command.
#![tactic(auto)]

mod bytes;
mod exit;
mod kind;
mod options;
mod refusal;
mod strokes;
mod words;

pub use bytes::KeyboardBytes;
pub use exit::Exit;
pub use kind::Kind;
pub use refusal::{Line, Refusal};
pub use strokes::Strokes;
pub use words::{
    BoardCommand, BoardRun, Command, FileCommand, PairCommand, RunCommand, clock_in, data_in, form,
    read_command, typed_clock_in, typed_data_in,
};
