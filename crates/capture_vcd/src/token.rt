//! The tokens of a text, each with its line.

ghost use Rattle.capture_vcd.specs.Tokens.{Fits, IsNext, IsWithin};

use text_lines::{next_field, next_line};

/// What is left of a text: the number of the line that was begun, what is left of it, and the lines after it.
#[derive(Clone, Copy)]
pub(crate) struct Tokens<'a> {
    pub(crate) line: u32,
    pub(crate) fields: &'a [u8],
    pub(crate) rest: &'a [u8],
}

/// What comes next in a text.
#[derive(Clone, Copy)]
pub(crate) enum Next<'a> {
    /// A field of the line that was begun last, and what is left after it.
    Field(&'a [u8], Tokens<'a>),
    /// The end, on the line with this number, one after the last.
    End(u32),
}

/// What comes next in what is left of a text.
pub(crate) fn next_token(tokens: Tokens<'_>) -> Next<'_>
    requires fits { Fits tokens }
    ensures is { IsNext tokens.entry result }
    ensures within { IsWithin result }
{
    if let Some((text, fields)) = next_field(tokens.fields) {
        return Next::Field(text, Tokens { fields, ..tokens });
    }
    let mut line = tokens.line;
    let mut rest = tokens.rest;
    while let Some((begun, after)) = next_line(rest) {
        line += 1;
        rest = after;
        if let Some((text, fields)) = next_field(begun) {
            return Next::Field(text, Tokens { line, fields, rest });
        }
    }
    Next::End(line + 1)
}
