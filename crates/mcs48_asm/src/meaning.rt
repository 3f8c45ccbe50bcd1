//! What values mean, and the bytes of a line.

ghost use Rattle.std.specs.Prelude.{◌≡◌, ◌%◌, IfOk, map};
ghost use Rattle.std.specs.List.{slice_split};
ghost use Rattle.mcs48_asm.specs.Characters.{is_comma};
ghost use Rattle.mcs48_asm.specs.Names.{meaning, taken, with_value, bytes_of};
ghost use Rattle.mcs48_asm.specs.Kept.{kept_value, kept_part, value_seen, statement_seen};

use crate::argument::{Role, Value};
use crate::names::{Names, value_named};
use crate::statement::Statement;
use crate::values::part_value;
use std::alloc::{AllocError, Global};
use text_lines::split_once;

/// The number that a value means, if its name has one.
pub(crate) fn meaning(names: &Names<'_>, value: Value<'_>) -> Option<u32>
    ensures { result ≡ meaning (kept_value names.now.entries) (value_seen value.entry) }
{
    match value {
        Value::Number(number) => Some(number),
        Value::Named(name) => value_named(names, name),
        Value::Low(name) => Some(value_named(names, name)? % 256),
    }
}

/// The number that stands for a value in a line's bytes.
pub(crate) fn taken(names: &Names<'_>, value: Value<'_>) -> u32
    ensures { result ≡ taken (kept_value names.now.entries) (value_seen value.entry) }
{
    meaning(names, value).unwrap_or(0)
}

/// The bytes of an instruction with this first byte and this value.
pub(crate) fn with_value(opcode: u8, role: Role, number: u32) -> [u8; 2]
    ensures { result ≡ with_value opcode role number }
{
    let low = (number % 256) as u8;
    match role {
        Role::Address => [opcode.wrapping_add((number / 256 * 32 % 256) as u8), low],
        Role::Byte | Role::Target => [opcode, low],
    }
}

/// The bytes of a DB line.
fn data_bytes(alloc: Global, names: &Names<'_>, text: &[u8]) -> Result<Vec<u8>, AllocError>
    ensures { IfOk result (λ bytes. bytes.items ≡ map (λ part. taken (kept_value names.now.entries)
        (kept_part part) % 256) (slice_split is_comma text.now)) }
{
    let mut bytes = Vec::new(alloc);
    let mut rest = text;
    while let Some((part, more)) = split_once(b',', rest) {
        bytes.push((taken(names, part_value(part)) % 256) as u8)?;
        rest = more;
    }
    bytes.push((taken(names, part_value(rest)) % 256) as u8)?;
    Ok(bytes)
}

/// The bytes of a statement.
pub(crate) fn bytes_of(
    alloc: Global,
    names: &Names<'_>,
    statement: Statement<'_>,
) -> Result<Vec<u8>, AllocError>
    ensures { IfOk result (λ bytes. bytes.items ≡ bytes_of (kept_value names.now.entries)
        (statement_seen statement.entry)) }
{
    match statement {
        Statement::Instruction(opcode, None) => Vec::from_slice(alloc, &[opcode]),
        Statement::Instruction(opcode, Some(argument)) => {
            let bytes = with_value(opcode, argument.role, taken(names, argument.value));
            Vec::from_slice(alloc, &bytes)
        }
        Statement::Data(text) => data_bytes(alloc, names, text),
        _ => Ok(Vec::new(alloc)),
    }
}
