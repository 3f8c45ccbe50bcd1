//! What a statement says.

ghost use Rattle.std.specs.Prelude.{◌≡◌, ◌∷◌, is_some};
ghost use Rattle.std.specs.Option.{option_map, ok_or};
ghost use Rattle.mcs48_asm.specs.declared.flaw.Flaw.TheVariants.{Misfit};
ghost use Rattle.mcs48_asm.specs.Rows.{instructions};
ghost use Rattle.mcs48_asm.specs.Tokens.{tokens_of, parts_of};
ghost use Rattle.mcs48_asm.specs.Values.{value_of};
ghost use Rattle.mcs48_asm.specs.Statements.{Data, values_of, equate_of, origin_of, data_of, instruction_with};
ghost use Rattle.mcs48_asm.specs.Statements.{instruction_in, first_fit, statement_of};
ghost use Rattle.mcs48_asm.specs.Capped.{statement_capped, found_capped};
ghost use Rattle.mcs48_asm.specs.Kept.{reading_seen, statement_seen, found_seen, form_seen, kept_fit};

use crate::argument::{Argument, Reading};
use crate::flaw::Flaw;
use crate::operands::{instructions, is_instruction, is_spelled, read_all};
use crate::rows::Row;
use crate::values::{only_number, value_of};
use crate::words::{is_name, next_token, two_words};
use text_lines::split_once;

/// The words of the statements that are no instruction.
const EQU: &[u8] = b"EQU";

const ORG: &[u8] = b"ORG";

const DB: &[u8] = b"DB";

/// A statement.
#[derive(Clone, Copy)]
pub(crate) enum Statement<'a> {
    Nothing,
    /// The first byte of an instruction, and the value that its bytes take.
    Instruction(u8, Option<Argument<'a>>),
    /// The place of the next byte, at most 65,536, which stands for all places past 65,535.
    Origin(u32),
    /// The text of the values, each of which is one.
    Data(&'a [u8]),
    /// A name and its value, at most 65,536, which stands for all values past 65,535.
    Equate(&'a [u8], u32),
}

/// Whether a text is a value.
fn is_value(text: &[u8]) -> bool
    ensures { result ≡ is_some (value_of (tokens_of text.now)) }
{
    value_of(text).is_some()
}

/// Whether each part of a text between commas is a value.
fn are_values(text: &[u8]) -> bool
    ensures { result ≡ is_some (values_of (parts_of (tokens_of text.now))) }
{
    let mut rest = text;
    while let Some((part, more)) = split_once(b',', rest) {
        if !is_value(part) {
            return false;
        }
        rest = more;
    }
    is_value(rest)
}

/// A name, EQU and a number, from the first token and the text after it.
fn equate_of<'a>(name: &'a [u8], rest: &[u8]) -> Result<Statement<'a>, Flaw>
    ensures { found_seen result ≡ found_capped (ok_or (equate_of (name.now ∷ tokens_of rest.now)) Misfit) }
{
    let Some((word, number)) = next_token(rest) else {
        return Err(Flaw::Misfit);
    };
    if !is_name(name) || word != EQU {
        return Err(Flaw::Misfit);
    }
    match only_number(number) {
        Some(number) => Ok(Statement::Equate(name, number)),
        None => Err(Flaw::Misfit),
    }
}

/// ORG and a number, from the first token and the text after it.
fn origin_of<'a>(word: &[u8], rest: &[u8]) -> Result<Statement<'a>, Flaw>
    ensures { found_seen result ≡ found_capped (ok_or (origin_of (word.now ∷ tokens_of rest.now)) Misfit) }
{
    if word != ORG {
        return Err(Flaw::Misfit);
    }
    match only_number(rest) {
        Some(number) => Ok(Statement::Origin(number)),
        None => Err(Flaw::Misfit),
    }
}

/// The values of a DB line.
fn data_in(values: &[u8]) -> Result<Statement<'_>, Flaw>
    ensures { found_seen result ≡ found_capped (ok_or (option_map Data
        (values_of (parts_of (tokens_of values.now)))) Misfit) }
{
    if are_values(values) {
        Ok(Statement::Data(values))
    } else {
        Err(Flaw::Misfit)
    }
}

/// DB and values, from the first token and the text after it.
fn data_of<'a>(word: &[u8], values: &'a [u8]) -> Result<Statement<'a>, Flaw>
    ensures { found_seen result ≡ found_capped (ok_or (data_of (word.now ∷ tokens_of values.now)) Misfit) }
{
    if word != DB {
        return Err(Flaw::Misfit);
    }
    data_in(values)
}

/// The instruction with this first byte whose operands say this.
fn instruction_with<'a>(first: u8, said: Option<Reading<'a>>) -> Option<Statement<'a>>
    ensures { option_map statement_seen result ≡ option_map (instruction_with first)
        (option_map reading_seen said.entry) }
{
    let said = said?;
    Some(Statement::Instruction(first.wrapping_add(said.offset), said.argument))
}

/// The instruction of a row whose first word and operands these are.
fn instruction_in<'a>(row: &Row, word: &[u8], operands: &'a [u8]) -> Option<Statement<'a>>
    ensures { option_map statement_seen result ≡ option_map statement_capped
        (instruction_in (form_seen row.now) (word.now ∷ tokens_of operands.now)) }
{
    if !is_spelled(&row.0, word) {
        return None;
    }
    instruction_with(row.2, read_all(row.1, operands))
}

/// The instruction of the first row that fits.
fn first_fit<'a>(rows: &[Row], word: &[u8], operands: &'a [u8]) -> Option<Statement<'a>>
    ensures { option_map statement_seen result ≡ kept_fit rows.now (word.now ∷ tokens_of operands.now) }
{
    for row in rows {
        if let Some(statement) = instruction_in(row, word, operands) {
            return Some(statement);
        }
    }
    None
}

/// An instruction, from the first token and the text after it.
fn instruction_of<'a>(word: &[u8], operands: &'a [u8]) -> Result<Statement<'a>, Flaw>
    ensures { found_seen result ≡ found_capped (ok_or (first_fit instructions
        (word.now ∷ tokens_of operands.now)) Misfit) }
{
    match first_fit(instructions(), word, operands) {
        Some(statement) => Ok(statement),
        None => Err(Flaw::Misfit),
    }
}

/// The statement that a text writes, or its flaw.
pub(crate) fn statement_of(text: &[u8]) -> Result<Statement<'_>, Flaw>
    ensures { found_seen result ≡ found_capped (statement_of text.now) }
{
    let Some((token, rest)) = next_token(text) else {
        return Ok(Statement::Nothing);
    };
    let (first, second) = two_words(text);
    if second == EQU {
        equate_of(token, rest)
    } else if first == ORG {
        origin_of(token, rest)
    } else if first == DB {
        data_of(token, rest)
    } else if is_instruction(first) {
        instruction_of(token, rest)
    } else {
        Err(Flaw::NoStatement)
    }
}
