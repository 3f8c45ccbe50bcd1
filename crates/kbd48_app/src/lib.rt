//! The program as one call: from the words and the files to the printed text and the exit.
//!
//! This layer knows the order in which files are fetched and judged, and the cause of each exit. It knows no file system and
//! no terminal: the shelf and the sink are handed in, and `main` alone makes the real ones. The words are those of
//! `app_words`; what is answered of files, of runs and of programs on the board is in `app_answers`, `app_runs` and
//! `app_boards`. Source: our own.
#![tactic(auto)]

mod answering;
mod boarding;
mod capturing;
mod debugging;
mod law;
mod top;

pub use law::{board_says_run, run_and_expect_print_alike};
pub use top::kbd48;
