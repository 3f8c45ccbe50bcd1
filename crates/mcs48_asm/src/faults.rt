//! The faults of a line.

ghost use Rattle.std.specs.Prelude.{◌≡◌, ◌&&◌, false, length, not, is_none, is_some, slice_index_or};
ghost use Rattle.std.specs.List.{list_any, slice_split};
ghost use Rattle.mcs48_asm.specs.Characters.{is_comma};
ghost use Rattle.mcs48_asm.specs.Faults.{is_above, is_past, is_too_large, arguments, is_outside, has_wrong_number};
ghost use Rattle.mcs48_asm.specs.Faults.{is_equate, has_labelled_equate, has_unknown_name, is_refused};
ghost use Rattle.mcs48_asm.specs.Faults.{is_defined_again, is_off_page, is_past_end, is_filled_again, fault_of};
ghost use Rattle.mcs48_asm.specs.Names.{meaning, labelled, equated};
ghost use Rattle.mcs48_asm.specs.Rows.{is_reserved};
ghost use Rattle.mcs48_asm.specs.Kept.{kept_value, kept_part, value_seen, argument_seen, statement_seen, line_seen};

use crate::argument::{Argument, Role, Value};
use crate::flaw::Flaw;
use crate::line::Line;
use crate::meaning::meaning;
use crate::memory::is_any_filled;
use crate::names::{Names, value_named};
use crate::operands::is_reserved;
use crate::places::count_of;
use crate::statement::Statement;
use crate::values::{GREATEST, part_value};
use mcs48_isa::PLACES;
use text_lines::split_once;

/// Whether a value means a number past this one.
fn is_above(names: &Names<'_>, limit: u32, value: Value<'_>) -> bool
    ensures { result ≡ is_above (kept_value names.now.entries) limit (value_seen value.entry) }
{
    match meaning(names, value) {
        Some(number) => limit < number,
        None => false,
    }
}

/// Whether a value is too large for its place.
fn is_too_large(names: &Names<'_>, argument: Argument<'_>) -> bool
    ensures { result ≡ is_too_large (kept_value names.now.entries) (argument_seen argument.entry) }
{
    match argument.role {
        Role::Byte => is_above(names, 255, argument.value),
        Role::Address => is_above(names, PLACES as u32 - 1, argument.value),
        Role::Target => matches!(argument.value, Value::Number(number) if number > GREATEST),
    }
}

/// Whether the name of a value has no meaning.
fn is_unknown(names: &Names<'_>, value: Value<'_>) -> bool
    ensures { result ≡ is_none (meaning (kept_value names.now.entries) (value_seen value.entry)) }
{
    meaning(names, value).is_none()
}

/// Whether a value is a target outside the page of the place after this one.
fn is_outside(names: &Names<'_>, start: u32, argument: Argument<'_>) -> bool
    ensures { result ≡ is_outside (kept_value names.now.entries) start argument.entry.role
        (value_seen argument.entry.value) }
{
    match (argument.role, meaning(names, argument.value)) {
        (Role::Target, Some(number)) => number as usize / 256 != (start as usize + 1) / 256,
        _ => false,
    }
}

/// Whether a part of DB's text is no byte.
fn has_large_part(names: &Names<'_>, text: &[u8]) -> bool
    ensures { result ≡ list_any (λ part. is_above (kept_value names.now.entries) 255 (kept_part part))
        (slice_split is_comma text.now) }
{
    let mut rest = text;
    while let Some((part, more)) = split_once(b',', rest) {
        if is_above(names, 255, part_value(part)) {
            return true;
        }
        rest = more;
    }
    is_above(names, 255, part_value(rest))
}

/// Whether a part of DB's text is a name without a meaning.
fn has_unknown_part(names: &Names<'_>, text: &[u8]) -> bool
    ensures { result ≡ list_any (λ part. is_none (meaning (kept_value names.now.entries) (kept_part part)))
        (slice_split is_comma text.now) }
{
    let mut rest = text;
    while let Some((part, more)) = split_once(b',', rest) {
        if is_unknown(names, part_value(part)) {
            return true;
        }
        rest = more;
    }
    is_unknown(names, part_value(rest))
}

/// Whether a value of a statement is too large for its place.
fn has_large_value(names: &Names<'_>, statement: Statement<'_>) -> bool
    ensures { result ≡ list_any (is_too_large (kept_value names.now.entries))
        (arguments (statement_seen statement.entry)) }
{
    match statement {
        Statement::Instruction(_, Some(argument)) => is_too_large(names, argument),
        Statement::Data(text) => has_large_part(names, text),
        _ => false,
    }
}

/// Whether a value of a statement is a name without a meaning.
pub(crate) fn has_unknown_name(names: &Names<'_>, statement: Statement<'_>) -> bool
    ensures { result ≡ list_any (λ argument. is_none (meaning (kept_value names.now.entries) argument.value))
        (arguments (statement_seen statement.entry)) }
{
    match statement {
        Statement::Instruction(_, Some(argument)) => is_unknown(names, argument.value),
        Statement::Data(text) => has_unknown_part(names, text),
        _ => false,
    }
}

/// Whether a statement jumps out of the page of its second byte.
pub(crate) fn is_off_page(names: &Names<'_>, start: u32, statement: Statement<'_>) -> bool
    ensures { result ≡ list_any
        (λ argument. is_outside (kept_value names.now.entries) start argument.role argument.value)
        (arguments (statement_seen statement.entry)) }
{
    match statement {
        Statement::Instruction(_, Some(argument)) => is_outside(names, start, argument),
        Statement::Data(_) => false,
        _ => false,
    }
}

/// Whether the number of ORG or EQU is too large.
fn has_wrong_number(statement: Statement<'_>) -> bool
    ensures { result ≡ has_wrong_number (statement_seen statement.entry) }
{
    match statement {
        Statement::Origin(number) => number > PLACES as u32,
        Statement::Equate(_, number) => number > GREATEST,
        _ => false,
    }
}

/// Whether a label is before EQU.
fn has_labelled_equate(line: Line<'_>) -> bool
    ensures { result ≡ has_labelled_equate (line_seen line.entry) }
{
    match (line.label, line.statement) {
        (Some(_), Statement::Equate(_, _)) => true,
        _ => false,
    }
}

/// Whether a line's label may not be defined.
fn has_reserved_label(line: Line<'_>, start: u32) -> bool
    ensures { result ≡ list_any (λ definition. is_reserved definition.name) (labelled
        (record { start = start; line = line_seen line.entry })) }
{
    match line.label {
        Some(label) => is_reserved(label),
        None => false,
    }
}

/// Whether the name before EQU may not be defined.
fn has_reserved_equate(statement: Statement<'_>) -> bool
    ensures { result ≡ list_any (λ definition. is_reserved definition.name) (equated (statement_seen statement.entry)) }
{
    match statement {
        Statement::Equate(name, _) => is_reserved(name),
        _ => false,
    }
}

/// Whether a line has fault 3: a value or a number is too large, a reserved name is defined, or a label is before
/// EQU.
fn is_refused(names: &Names<'_>, line: Line<'_>, start: u32) -> bool
    ensures { result ≡ is_refused (kept_value names.now.entries)
        (record { start = start; line = line_seen line.entry }) }
{
    has_large_value(names, line.statement)
        || has_wrong_number(line.statement)
        || has_reserved_label(line, start)
        || has_reserved_equate(line.statement)
        || has_labelled_equate(line)
}

/// Whether a name may be defined, and is defined already.
fn is_taken(seen: &Names<'_>, name: &[u8]) -> bool
    ensures { result ≡ (not (is_reserved name.now) && is_some (kept_value seen.now.entries name.now)) }
{
    value_named(seen, name).is_some() && !is_reserved(name)
}

/// Whether a line defines a name that an earlier line defines.
fn is_defined_again(seen: &Names<'_>, line: Line<'_>, start: u32) -> bool
    ensures { result ≡ is_defined_again (kept_value seen.now.entries)
        (record { start = start; line = line_seen line.entry }) }
{
    if let Some(label) = line.label
        && is_taken(seen, label)
    {
        return true;
    }
    match line.statement {
        Statement::Equate(name, _) => is_taken(seen, name),
        _ => false,
    }
}

/// Whether a line has a byte past place 2,047.
pub(crate) fn is_past_end(line: Line<'_>, start: u32) -> bool
    ensures { result ≡ is_past_end (record { start = start; line = line_seen line.entry }) }
{
    let count = count_of(line.statement);
    count > 0 && start as usize + count > PLACES
}

/// Whether a line has a byte at a place that an earlier line has filled.
fn is_filled_again(filled: &[bool], line: Line<'_>, start: u32) -> bool
    requires { length filled.now ≡ 2048 }
    ensures { result ≡ is_filled_again (λ place. slice_index_or filled.now place false)
        (record { start = start; line = line_seen line.entry }) }
{
    let count = count_of(line.statement);
    count > 0 && is_any_filled(filled, start as usize, start as usize + count)
}

/// The first flaw of a line.
pub(crate) fn fault_of(
    names: &Names<'_>,
    seen: &Names<'_>,
    filled: &[bool],
    line: Line<'_>,
    start: u32,
) -> Option<Flaw>
    requires { length filled.now ≡ 2048 }
    ensures { result ≡ fault_of (kept_value names.now.entries) (kept_value seen.now.entries)
        (λ place. slice_index_or filled.now place false)
        (record { start = start; line = line_seen line.entry }) }
{
    if line.flaw.is_some() {
        line.flaw
    } else if is_refused(names, line, start) {
        Some(Flaw::Misfit)
    } else if has_unknown_name(names, line.statement) {
        Some(Flaw::UnknownName)
    } else if is_defined_again(seen, line, start) {
        Some(Flaw::NameTaken)
    } else if is_off_page(names, start, line.statement) {
        Some(Flaw::OffPage)
    } else if is_past_end(line, start) {
        Some(Flaw::PastEnd)
    } else if is_filled_again(filled, line, start) {
        Some(Flaw::PlaceTaken)
    } else {
        None
    }
}
