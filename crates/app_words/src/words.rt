//! The words that follow the program's name, read by their places.

ghost use Rattle.std.specs.Prelude.{◌≡◌, ◌+◌, ◌<◌, ◌≤◌, length, map, string_bytes, IfSome};
ghost use Rattle.std.specs.Char.{is_ascii_digit};
ghost use Rattle.std.specs.List.{list_all};
ghost use Rattle.app_words.specs.Words.{is_name, is_short_number, count_of, step_of, named_of, pair_of, debug_of, probe_of};
ghost use Rattle.app_words.specs.Words.{run_of, trace_of, board_of, feed_of, sample_of, strokes_of, capture_of, signals_of, typed_of, clock_in, command_of, data_in};
ghost use Rattle.app_words.specs.Words.{files_in, is_form, typed_clock_in, typed_data_in};

use crate::bytes::KeyboardBytes;
use crate::kind::Kind;
use crate::options::{
    is_debounced, read_board_options, read_probe_option, read_run_options, read_trace_option,
};
use crate::strokes::Strokes;

/// The greatest COUNT of steps.
const MOST_STEPS: u32 = 1_000_000;

/// A command over one file, with its numbers. The file's name is the word after the command.
#[derive(Clone, Copy, Debug, PartialEq, Eq, Drop)]
pub enum FileCommand {
    /// `step` NAME COUNT
    Step { count: u32 },
    /// `list` NAME
    Listing,
    /// `asm` NAME
    Assemble,
    /// `compile` NAME
    Compile,
}

/// What is reported of a run.
#[derive(Clone, Copy, Debug, PartialEq, Eq, Drop)]
pub enum RunCommand {
    /// `run`: its log, then with `--ticks` its tick starts, and then with `--steps` the state at its end.
    Log { ticks: bool, steps: bool },
    /// `expect`: the model's log at its tick starts.
    Expect,
    /// `trace`: the two wires, as they change, and with `--seen` data as the controller sees it.
    Trace { seen: bool },
}

/// A command over two files. Their names are the two words after the command.
#[derive(Clone, Copy, Debug, PartialEq, Eq, Drop)]
pub enum PairCommand {
    /// `cert` NAME NAME: a HEX image, and a certificate for it.
    Certify,
    /// `type` NAME NAME: a layout, and a text to be typed on it.
    Spell,
    /// `run` NAME NAME and its options, `expect` NAME NAME, `trace` NAME NAME and its option: a layout, and a key file for
    /// it.
    OverRun(RunCommand),
}

/// What is reported of a run on the board.
#[derive(Clone, Copy, Debug, PartialEq, Eq, Drop)]
pub enum BoardCommand {
    /// Its log, and then with `--steps` the state at its end.
    Log { steps: bool },
    /// With `--trace` or `--seen`: the two wires, as they change, and with `--seen` data as the controller sees it.
    Trace { seen: bool },
}

/// A run on the board: what is reported of it, and the byte that data memory, A and T hold at power-on.
#[derive(Clone, Copy, Debug, PartialEq, Eq, Drop)]
pub struct BoardRun {
    pub prints_what: BoardCommand,
    pub fill: u8,
}

/// A command, as the words give it.
#[derive(Debug, Drop)]
pub enum Command {
    /// A command over the file that the word after it names.
    OverFile(FileCommand),
    /// A command over the files that the two words after it name.
    OverPair(PairCommand),
    /// `debug` NAME NAME NAME: a layout, a key file for it, and a script. They are the three words after the command.
    Debug,
    /// `probe` NAME NAME NAME NAME and its option: a HEX image, a layout, a key file for it, and a script. They are the four
    /// words after the command. With `--fill`, the byte that data memory, A and T hold at power-on, and else 00.
    Probe { fill: u8 },
    /// `board` NAME NAME NAME and its options: a HEX image, a layout, and a key file for it. They are the three words after
    /// the command.
    Board(BoardRun),
    /// `words` BYTE ..
    Feed(KeyboardBytes),
    /// `sample` COUNT, or `sample --debounced` COUNT
    Sample { strokes: Strokes, debounced: bool },
    /// `capture` NAME, or `capture` NAME CLOCK DATA: a value change dump, and the names of its two signals, which `clock_in`
    /// and `data_in` read. The file's name is the word after the command.
    Capture,
    /// `capture` `--keys` NAME NAME, or `capture` `--keys` NAME NAME CLOCK DATA: a layout, a value change dump, and the names of
    /// its two signals, which `typed_clock_in` and `typed_data_in` read. The files' names are the two words after `--keys`.
    Typed,
}

impl FileCommand {
    ghost use Rattle.app_words.specs.Kinds.{kind_of};

    /// The kind of the file that the command names.
    pub fn kind(self) -> Kind
        ensures kind { result ≡ kind_of self }
    {
        match self {
            FileCommand::Step { .. } | FileCommand::Listing => Kind::Hex,
            FileCommand::Assemble => Kind::Asm,
            FileCommand::Compile => Kind::Layout,
        }
    }
}

/// Whether the word isn't empty and doesn't begin with `-`.
fn is_name(word: &str) -> bool
    ensures { result ≡ is_name word.now }
{
    match word.as_bytes() {
        [] => false,
        [first, ..] => *first != b'-',
    }
}

/// Whether the word has no other bytes than decimal digits.
fn has_digits_alone(word: &[u8]) -> bool
    ensures { result ≡ list_all is_ascii_digit word.now }
{
    word.iter().all(|byte| byte.is_ascii_digit())
}

/// Whether the word is one to seven decimal digits.
fn is_short_number(word: &[u8]) -> bool
    ensures { result ≡ is_short_number word.now }
{
    !word.is_empty() && word.len() <= 7 && has_digits_alone(word)
}

/// The value of a COUNT, at most 1,000,000.
#[tactic(auto, using(crate::proofs::CountsParse::no_count))]
fn count(word: &str) -> Option<u32>
    ensures { result ≡ count_of word.now }
{
    if !is_short_number(word.as_bytes()) {
        return None;
    }
    match word.parse::<u32>() {
        Ok(count) if count <= MOST_STEPS => Some(count),
        _ => None,
    }
}

/// `step` NAME COUNT
fn read_step(words: &[String]) -> Option<Command>
    ensures command { result ≡ step_of (map string_bytes words.now) }
    ensures named { IfSome result (λ command. files_in command ≤ length words.now) }
{
    match words {
        [name, steps] if is_name(name) => {
            let count = count(steps)?;
            Some(Command::OverFile(FileCommand::Step { count }))
        }
        _ => None,
    }
}

/// A command that takes a NAME alone.
fn read_named(command: FileCommand, words: &[String]) -> Option<Command>
    ensures command { result ≡ named_of command (map string_bytes words.now) }
    ensures named { IfSome result (λ command. files_in command ≤ length words.now) }
{
    match words {
        [name] if is_name(name) => Some(Command::OverFile(command)),
        _ => None,
    }
}

/// A command that takes two NAMEs alone.
fn read_pair(command: PairCommand, words: &[String]) -> Option<Command>
    ensures command { result ≡ pair_of command (map string_bytes words.now) }
    ensures named { IfSome result (λ command. files_in command ≤ length words.now) }
{
    match words {
        [first, second] if is_name(first) && is_name(second) => Some(Command::OverPair(command)),
        _ => None,
    }
}

/// `debug` NAME NAME NAME
fn read_debug(words: &[String]) -> Option<Command>
    ensures command { result ≡ debug_of (map string_bytes words.now) }
    ensures named { IfSome result (λ command. files_in command ≤ length words.now) }
{
    match words {
        [layout, keys, script] if is_name(layout) && is_name(keys) && is_name(script) => {
            Some(Command::Debug)
        }
        _ => None,
    }
}

/// `probe` NAME NAME NAME NAME, and its option.
fn read_probe(words: &[String]) -> Option<Command>
    ensures command { result ≡ probe_of (map string_bytes words.now) }
    ensures named { IfSome result (λ command. files_in command ≤ length words.now) }
{
    match words {
        [image, layout, keys, script, options @ ..]
            if is_name(image) && is_name(layout) && is_name(keys) && is_name(script) => {
            let fill = read_probe_option(options)?;
            Some(Command::Probe { fill })
        }
        _ => None,
    }
}

/// `run` NAME NAME, and its options.
fn read_run(words: &[String]) -> Option<Command>
    ensures command { result ≡ run_of (map string_bytes words.now) }
    ensures named { IfSome result (λ command. files_in command ≤ length words.now) }
{
    match words {
        [first, second, options @ ..] if is_name(first) && is_name(second) => {
            let command = read_run_options(options)?;
            Some(Command::OverPair(PairCommand::OverRun(command)))
        }
        _ => None,
    }
}

/// `trace` NAME NAME, and its option.
fn read_trace(words: &[String]) -> Option<Command>
    ensures command { result ≡ trace_of (map string_bytes words.now) }
    ensures named { IfSome result (λ command. files_in command ≤ length words.now) }
{
    match words {
        [first, second, options @ ..] if is_name(first) && is_name(second) => {
            let command = read_trace_option(options)?;
            Some(Command::OverPair(PairCommand::OverRun(command)))
        }
        _ => None,
    }
}

/// `board` NAME NAME NAME, and its options.
fn read_board(words: &[String]) -> Option<Command>
    ensures command { result ≡ board_of (map string_bytes words.now) }
    ensures named { IfSome result (λ command. files_in command ≤ length words.now) }
{
    match words {
        [image, layout, keys, options @ ..] if is_name(image) && is_name(layout) && is_name(keys) =>
            {
                let wanted = read_board_options(options)?;
                Some(Command::Board(wanted))
            }
        _ => None,
    }
}

/// `words` BYTE ..
fn read_feed(words: &[String]) -> Option<Command>
    ensures command { result ≡ feed_of (map string_bytes words.now) }
    ensures named { IfSome result (λ command. files_in command ≤ length words.now) }
{
    KeyboardBytes::read(words).map(Command::Feed)
}

/// COUNT strokes, with a debounce or without.
fn read_strokes(strokes: &str, debounced: bool) -> Option<Command>
    ensures { result ≡ strokes_of debounced strokes.now }
{
    let strokes = Strokes::new(count(strokes)?)?;
    Some(Command::Sample { strokes, debounced })
}

/// `sample` COUNT, or `sample --debounced` COUNT
fn read_sample(words: &[String]) -> Option<Command>
    ensures command { result ≡ sample_of (map string_bytes words.now) }
    ensures named { IfSome result (λ command. files_in command ≤ length words.now) }
{
    match words {
        [strokes] => read_strokes(strokes, false),
        [option, strokes] if is_debounced(option) => read_strokes(strokes, true),
        _ => None,
    }
}

/// `capture` NAME, or `capture` NAME CLOCK DATA
fn read_signals(words: &[String]) -> Option<Command>
    ensures command { result ≡ signals_of (map string_bytes words.now) }
    ensures named { IfSome result (λ command. files_in command ≤ length words.now) }
{
    match words {
        [name] if is_name(name) => Some(Command::Capture),
        [name, clk, dat] if is_name(name) && is_name(clk) && is_name(dat) => Some(Command::Capture),
        _ => None,
    }
}

/// The words after `capture --keys`: NAME NAME, or NAME NAME CLOCK DATA
fn read_typed(words: &[String]) -> Option<Command>
    ensures command { result ≡ typed_of (map string_bytes words.now) }
    ensures named { IfSome result (λ command. files_in command ≤ length words.now + 1) }
{
    match words {
        [layout, name] if is_name(layout) && is_name(name) => Some(Command::Typed),
        [layout, name, clk, dat]
            if is_name(layout) && is_name(name) && is_name(clk) && is_name(dat) => {
            Some(Command::Typed)
        }
        _ => None,
    }
}

/// `capture` and its words.
fn read_capture(words: &[String]) -> Option<Command>
    ensures command { result ≡ capture_of (map string_bytes words.now) }
    ensures named { IfSome result (λ command. files_in command ≤ length words.now) }
{
    match words {
        [option, typed @ ..] if option.as_str() == "--keys" => read_typed(typed),
        _ => read_signals(words),
    }
}

/// The name of the clock's signal, of the words of `capture`: CLOCK, or `clock` if they don't say it.
pub fn clock_in(words: &[String]) -> &str
    ensures name { result.now ≡ clock_in (map string_bytes words.now) }
{
    match words {
        [_, _, clk, _] => clk.as_str(),
        _ => "clock",
    }
}

/// The name of the data wire's signal, of the words of `capture`: DATA, or `data` if they don't say it.
pub fn data_in(words: &[String]) -> &str
    ensures name { result.now ≡ data_in (map string_bytes words.now) }
{
    match words {
        [_, _, _, dat] => dat.as_str(),
        _ => "data",
    }
}

/// The name of the clock's signal, of the words of `capture --keys`: CLOCK, or `clock` if they don't say it.
pub fn typed_clock_in(words: &[String]) -> &str
    ensures name { result.now ≡ typed_clock_in (map string_bytes words.now) }
{
    match words {
        [_, _, _, _, clk, _] => clk.as_str(),
        _ => "clock",
    }
}

/// The name of the data wire's signal, of the words of `capture --keys`: DATA, or `data` if they don't say it.
pub fn typed_data_in(words: &[String]) -> &str
    ensures name { result.now ≡ typed_data_in (map string_bytes words.now) }
{
    match words {
        [_, _, _, _, _, dat] => dat.as_str(),
        _ => "data",
    }
}

/// The command of the words, or none if the words are outside the accepted forms.
pub fn read_command(words: &[String]) -> Option<Command>
    ensures command { result ≡ command_of (map string_bytes words.now) }
    ensures named { IfSome result (λ command. files_in command < length words.now) }
{
    let (command, words) = words.split_first()?;
    match command.as_str() {
        "step" => read_step(words),
        "list" => read_named(FileCommand::Listing, words),
        "asm" => read_named(FileCommand::Assemble, words),
        "compile" => read_named(FileCommand::Compile, words),
        "cert" => read_pair(PairCommand::Certify, words),
        "type" => read_pair(PairCommand::Spell, words),
        "run" => read_run(words),
        "expect" => read_pair(PairCommand::OverRun(RunCommand::Expect), words),
        "trace" => read_trace(words),
        "debug" => read_debug(words),
        "board" => read_board(words),
        "probe" => read_probe(words),
        "words" => read_feed(words),
        "sample" => read_sample(words),
        "capture" => read_capture(words),
        _ => None,
    }
}

/// Whether the words that follow the program's name have one of the accepted forms. It takes no memory.
pub fn form(words: &[String]) -> bool
    ensures form { result ≡ is_form (map string_bytes words.now) }
{
    read_command(words).is_some()
}
