//! Where the bytes of a line are.

ghost use Rattle.std.specs.Prelude.{◌≡◌, ◌+◌, ◌≤◌, ◌^◌, count_by, length};
ghost use Rattle.std.specs.List.{slice_split};
ghost use Rattle.mcs48_asm.specs.Characters.{is_comma};
ghost use Rattle.mcs48_asm.specs.Capped.{capped};
ghost use Rattle.mcs48_asm.specs.Places.{count_of, start_of};
ghost use Rattle.mcs48_asm.specs.Kept.{statement_seen};

use crate::statement::Statement;
use crate::values::GREATEST;

/// How many commas a text has.
fn commas_in(text: &[u8]) -> usize
    ensures number { result ≡ count_by is_comma text.now }
    ensures within { result ≤ length text.now }
{
    text.iter().filter(|character| **character == b',').count()
}

/// How many parts between commas a text has.
fn parts_in(text: &[u8]) -> usize
    ensures number { result ≡ length (slice_split is_comma text.now) }
    ensures fits { result ≤ 2 ^ 63 }
{
    commas_in(text) + 1
}

/// How many bytes a statement counts.
pub(crate) fn count_of(statement: Statement<'_>) -> usize
    ensures number { result ≡ count_of (statement_seen statement.entry) }
    ensures fits { result ≤ 2 ^ 63 }
{
    match statement {
        Statement::Nothing | Statement::Origin(_) | Statement::Equate(_, _) => 0,
        Statement::Instruction(_, None) => 1,
        Statement::Instruction(_, Some(_)) => 2,
        Statement::Data(values) => parts_in(values),
    }
}

/// The place of the next byte at a line, which is also its label's value.
pub(crate) fn start_of(place: u32, statement: Statement<'_>) -> u32
    ensures { result ≡ start_of place (statement_seen statement.entry) }
{
    match statement {
        Statement::Origin(number) => number,
        _ => place,
    }
}

/// The place of the next byte after a statement.
pub(crate) fn place_after(start: u32, statement: Statement<'_>) -> u32
    ensures { result ≡ capped (start + count_of (statement_seen statement.entry)) }
{
    (start as usize + count_of(statement)).min(GREATEST as usize + 1) as u32
}
