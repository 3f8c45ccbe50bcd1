//! The lines of a script.
//!
//! Source: our own.

ghost use Rattle.std.specs.Prelude.{◌≡◌, ◌<◌, [], IfSome};
ghost use Rattle.text_lines.specs.Fields.{pieces};
ghost use Rattle.debugger.specs.Commands.{cell_in, arm_from, number_from, word_named, command_of, command_in};
ghost use Rattle.debugger.specs.Commands.{HasCell};

use text_lines::{decimal, hexadecimal, single, split_once};

/// What a line of a script asks for.
#[derive(Clone, Copy, Drop)]
pub(crate) enum Command {
    /// So many steps.
    Step(u32),
    /// So many steps, but none after one at which a probe hits.
    Go(u32),
    /// The processor's state.
    Show,
    /// A place of data memory, 0 to 127.
    Ram(u8),
    /// Arming the probe of this number.
    Arm { probe: u32, a: u16, b: u8 },
    /// The tally of the probe of this number.
    Tell(u32),
    /// Dropping the probe of this number.
    Drop(u32),
}

/// The word of a line.
#[derive(Clone, Copy, Drop)]
enum Word {
    Step,
    Go,
    Show,
    Ram,
    Arm,
    Tell,
    Drop,
}

/// The word that is spelled so; None if there is no such word.
fn word_named(name: &[u8]) -> Option<Word>
    ensures { result ≡ word_named name.now }
{
    match name {
        b"step" => Some(Word::Step),
        b"go" => Some(Word::Go),
        b"show" => Some(Word::Show),
        b"ram" => Some(Word::Ram),
        b"arm" => Some(Word::Arm),
        b"tell" => Some(Word::Tell),
        b"drop" => Some(Word::Drop),
        _ => None,
    }
}

/// The place, 0 to 127, that two hexadecimal digits write. None for every other text.
fn cell(text: &[u8]) -> Option<u8>
    ensures cell { result ≡ cell_in text.now }
    ensures within { IfSome result (λ cell. cell < 128) }
{
    let number = hexadecimal(2, text)?;
    (number < 128).then_some(number as u8)
}

/// The number of one to nine decimal digits that is the last field. None for every other text.
fn last_number(text: &[u8]) -> Option<u32>
    ensures { result ≡ number_from (pieces 32 text.now) }
{
    decimal(9, single(b' ', text)?)
}

/// The arming of a probe, of the fields after the word. None if they haven't the form.
fn arm(text: &[u8]) -> Option<Command>
    ensures command { result ≡ arm_from (pieces 32 text.now) }
    ensures cell { IfSome result HasCell }
{
    let (probe, rest) = split_once(b' ', text)?;
    let probe = decimal(9, probe)?;
    let (a, rest) = split_once(b' ', rest)?;
    let a = hexadecimal(3, a)? as u16;
    let b = hexadecimal(2, single(b' ', rest)?)? as u8;
    Some(Command::Arm { probe, a, b })
}

/// What a word asks for with the fields after it, one at least. None if they haven't the form.
fn command_of(word: Word, text: &[u8]) -> Option<Command>
    ensures command { result ≡ command_of word (pieces 32 text.now) }
    ensures cell { IfSome result HasCell }
{
    match word {
        Word::Step => Some(Command::Step(last_number(text)?)),
        Word::Go => Some(Command::Go(last_number(text)?)),
        Word::Show => None,
        Word::Ram => Some(Command::Ram(cell(single(b' ', text)?)?)),
        Word::Arm => arm(text),
        Word::Tell => Some(Command::Tell(last_number(text)?)),
        Word::Drop => Some(Command::Drop(last_number(text)?)),
    }
}

/// What a word asks for that has no field after it.
fn command_alone(word: Word) -> Option<Command>
    ensures command { result ≡ command_of word [] }
    ensures cell { IfSome result HasCell }
{
    match word {
        Word::Show => Some(Command::Show),
        _ => None,
    }
}

/// What a line asks for that isn't blank. None if it hasn't the form.
pub(crate) fn command_in(line: &[u8]) -> Option<Command>
    ensures command { result ≡ command_in line.now }
    ensures cell { IfSome result HasCell }
{
    match split_once(b' ', line) {
        None => command_alone(word_named(line)?),
        Some((name, rest)) => command_of(word_named(name)?, rest),
    }
}
