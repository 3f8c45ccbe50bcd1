//! What a token after the header says.

ghost use Rattle.std.specs.Prelude.{◌≡◌};
ghost use Rattle.capture_vcd.specs.Changes.{after_end, changed, is_wire, level_of, marked, scalar, taken, taken_in_body, timed, turned, vector_of, with_level};

use crate::fault::Rule;
use crate::header::Names;
use crate::keyword::{is_comment, is_mark};
use crate::number::{code, time};
use crate::part::{Level, Part};
use crate::state::{State, Step};
use board_terms::Lines;

/// The level that a character says.
fn level_of(character: u8) -> Level
    ensures { result ≡ level_of character }
{
    match character {
        b'0' => Level::Low,
        b'1' => Level::High,
        _ => Level::Unknown,
    }
}

/// The level that the digits of a value say which is a token of its own.
fn vector(digits: &[u8]) -> Level
    ensures { result ≡ vector_of digits.now }
{
    match digits {
        [digit] => level_of(*digit),
        _ => Level::Unknown,
    }
}

/// Whether a code is that of a wire.
fn is_wire(wire: Option<u64>, code: Option<u64>) -> bool
    ensures { result ≡ is_wire wire code }
{
    match (wire, code) {
        (Some(wire), Some(code)) => wire == code,
        _ => false,
    }
}

/// The level of a wire after a value, which is the wire's or another signal's.
fn turned(is_its: bool, level: Level, before: bool) -> Result<bool, Rule>
    ensures { result ≡ turned is_its level before }
{
    if !is_its {
        return Ok(before);
    }
    match level {
        Level::Low => Ok(false),
        Level::High => Ok(true),
        Level::Unknown => Err(Rule::Unknown),
    }
}

impl State {
    /// With this level of the signal with a code.
    fn with_level(self, level: Level, code: Option<u64>) -> Result<State, Rule>
        ensures { result ≡ with_level level code self }
    {
        let clk = turned(is_wire(self.clk, code), level, self.lines.clk)?;
        let dat = turned(is_wire(self.dat, code), level, self.lines.dat)?;
        Ok(State {
            part: Part::Body,
            lines: Lines { clk, dat },
            ..self
        })
    }

    /// After a value that is a character, with its signal's code.
    fn scalar(self, character: u8, code_text: &[u8]) -> Result<State, Rule>
        ensures { result ≡ scalar character code_text.now self }
    {
        if code_text.is_empty() {
            return Err(Rule::Form);
        }
        self.with_level(level_of(character), code(code_text))
    }

    /// After a word with a dollar sign.
    fn marked(self, text: &[u8]) -> Result<State, Rule>
        ensures { result ≡ marked text.now self }
    {
        if is_comment(text) {
            Ok(self.in_part(Part::Comment))
        } else if is_mark(text) {
            Ok(self)
        } else {
            Err(Rule::Form)
        }
    }

    /// After a value, or a word with a dollar sign.
    fn changed(self, text: &[u8]) -> Result<State, Rule>
        ensures { result ≡ changed text.now self }
    {
        let [first, rest @ ..] = text else {
            return Err(Rule::Form);
        };
        match *first {
            b'$' => self.marked(text),
            b'0' | b'1' | b'x' | b'X' | b'z' | b'Z' => self.scalar(*first, rest),
            b'b' | b'B' | b'r' | b'R' | b's' | b'S' => {
                Ok(self.in_part(Part::Vector(vector(rest))))
            }
            _ => Err(Rule::Form),
        }
    }

    /// After a time, in units. The sample of the time before is complete.
    fn timed(self, digits: &[u8]) -> Result<Step, Rule>
        ensures { result ≡ timed digits.now self }
    {
        let unit = self.unit.ok_or(Rule::NoUnit)?;
        let time = time(digits).ok_or(Rule::Form)? * unit.nanoseconds();
        if time < self.time {
            return Err(Rule::Back);
        }
        if time == self.time {
            return Ok(self.without());
        }
        Ok(self.with_sample(Part::Body, time))
    }

    /// After a token that is in no comment and doesn't name a value's signal.
    fn taken_in_body(self, text: &[u8]) -> Result<Step, Rule>
        ensures { result ≡ taken_in_body text.now self }
    {
        match text {
            [b'#', digits @ ..] => self.timed(digits),
            _ => Ok(self.changed(text)?.without()),
        }
    }

    /// After a token; the first rule that it breaks, if it breaks one.
    pub(crate) fn taken(self, names: Names<'_>, text: &[u8]) -> Result<Step, Rule>
        ensures { result ≡ taken self.part names.entry.clk.now names.entry.dat.now text.now self }
    {
        match self.part {
            Part::Body => self.taken_in_body(text),
            Part::Comment => Ok(self.skipped(Part::Body, text).without()),
            Part::Vector(level) => Ok(self.with_level(level, code(text))?.without()),
            Part::Over => Ok(self.without()),
            _ => Ok(self.taken_in_header(names, text)?.without()),
        }
    }

    /// After the end.
    pub(crate) fn after_end(self) -> Result<Step, Rule>
        ensures { result ≡ after_end self.part self }
    {
        match self.part {
            Part::Body => Ok(self.with_sample(Part::Over, self.time)),
            Part::Over => Ok(self.without()),
            _ => Err(Rule::Unfinished),
        }
    }
}
