//! The options of a command, read by their places.

ghost use Rattle.std.specs.Prelude.{◌≡◌, codes, map, string_bytes};
ghost use Rattle.std.specs.Str.{bytes_eq};
ghost use Rattle.app_words.specs.Words.{are_both, board_options_of, both_by, fill_by, fill_of, log_of, board_option, trace_option_of};

use crate::bytes::read_byte;
use crate::words::{BoardCommand, BoardRun, RunCommand};

/// Whether the word is the option for a run's tick starts.
fn is_ticks(word: &str) -> bool
    ensures { result ≡ bytes_eq word.now (codes "--ticks") }
{
    word == "--ticks"
}

/// Whether the word is the option for the state at a run's end.
fn is_steps(word: &str) -> bool
    ensures { result ≡ bytes_eq word.now (codes "--steps") }
{
    word == "--steps"
}

/// Whether the word is the option for the two wires.
fn is_trace(word: &str) -> bool
    ensures { result ≡ bytes_eq word.now (codes "--trace") }
{
    word == "--trace"
}

/// Whether the word is the option for the two wires with data as the controller sees it.
fn is_seen(word: &str) -> bool
    ensures { result ≡ bytes_eq word.now (codes "--seen") }
{
    word == "--seen"
}

/// Whether the word is the option for what a part holds at power-on.
fn is_fill(word: &str) -> bool
    ensures { result ≡ bytes_eq word.now (codes "--fill") }
{
    word == "--fill"
}

/// Whether the word is the option for a debounce.
pub(crate) fn is_debounced(word: &str) -> bool
    ensures { result ≡ bytes_eq word.now (codes "--debounced") }
{
    word == "--debounced"
}

/// Whether two words are both options of `run`, in either order.
fn are_both(first: &str, second: &str) -> bool
    ensures { result ≡ are_both first.now second.now }
{
    is_ticks(first) && is_steps(second) || is_steps(first) && is_ticks(second)
}

/// The options of `run`, each at most once.
pub(crate) fn read_run_options(words: &[String]) -> Option<RunCommand>
    ensures { result ≡ log_of (map string_bytes words.now) }
{
    match words {
        [] => Some(RunCommand::Log {
            ticks: false,
            steps: false,
        }),
        [option] if is_ticks(option) => Some(RunCommand::Log {
            ticks: true,
            steps: false,
        }),
        [option] if is_steps(option) => Some(RunCommand::Log {
            ticks: false,
            steps: true,
        }),
        [first, second] if are_both(first, second) => Some(RunCommand::Log {
            ticks: true,
            steps: true,
        }),
        _ => None,
    }
}

/// The option of `trace`.
pub(crate) fn read_trace_option(words: &[String]) -> Option<RunCommand>
    ensures { result ≡ trace_option_of (map string_bytes words.now) }
{
    match words {
        [] => Some(RunCommand::Trace { seen: false }),
        [option] if is_seen(option) => Some(RunCommand::Trace { seen: true }),
        _ => None,
    }
}

/// The BYTE of `--fill`.
fn read_fill(option: &str, byte: &str) -> Option<u8>
    ensures { result ≡ fill_by option.now byte.now }
{
    if is_fill(option) {
        read_byte(byte)
    } else {
        None
    }
}

/// The option of `probe`: 00 if it isn't there.
#[tactic(auto, unfolding(crate::specs::Words::fill_of))]
pub(crate) fn read_probe_option(words: &[String]) -> Option<u8>
    ensures { result ≡ fill_of (map string_bytes words.now) }
{
    match words {
        [] => Some(0),
        [option, byte] => read_fill(option, byte),
        _ => None,
    }
}

/// What is reported of a run on the board, by an option that says so.
fn read_reported(option: &str) -> Option<BoardCommand>
    ensures { result ≡ board_option option.now }
{
    if is_steps(option) {
        return Some(BoardCommand::Log { steps: true });
    }
    if is_trace(option) {
        return Some(BoardCommand::Trace { seen: false });
    }
    if is_seen(option) {
        return Some(BoardCommand::Trace { seen: true });
    }
    None
}

/// A run on the board, if both parts of it were read.
fn both(prints_what: Option<BoardCommand>, fill: Option<u8>) -> Option<BoardRun>
    ensures { result ≡ both_by prints_what fill }
{
    Some(BoardRun {
        prints_what: prints_what?,
        fill: fill?,
    })
}

/// The options of `board`: what is reported, and what a part holds at power-on, in either order.
#[tactic(auto, unfolding(crate::specs::Words::board_options_of))]
pub(crate) fn read_board_options(words: &[String]) -> Option<BoardRun>
    ensures { result ≡ board_options_of (map string_bytes words.now) }
{
    let log = BoardCommand::Log { steps: false };
    match words {
        [] => both(Some(log), Some(0)),
        [option] => both(read_reported(option), Some(0)),
        [option, byte] => both(Some(log), read_fill(option, byte)),
        [first, second, third] if is_fill(first) => both(read_reported(third), read_byte(second)),
        [first, second, third] => both(read_reported(first), read_fill(second, third)),
        _ => None,
    }
}
