//! The names of a text, with their values.

ghost use Rattle.std.specs.Prelude.{◌≡◌, List, ℕ, [], ◌∷◌, Some, None, OnOk, IfOk, not, map, filter, if◌then◌else◌};
ghost use Rattle.std.specs.Option.{option_or};
ghost use Rattle.std.specs.Str.{bytes_eq};
ghost use Rattle.std.specs.Str.Lines.{lines};
ghost use Rattle.mcs48_asm.specs.Names.{value_named, defined, equated, definitions};
ghost use Rattle.mcs48_asm.specs.Capped.{kept_places};
ghost use Rattle.mcs48_asm.specs.Kept.{kept_line, kept_value, line_seen};
ghost use Rattle.mcs48_asm.specs.Rows.{is_reserved};

use crate::line::{Line, line_of};
use crate::operands::is_reserved;
use crate::places::{place_after, start_of};
use crate::statement::Statement;
use crate::text_hash::TextHash;
use indexmap::IndexMap;
use std::alloc::{AllocError, Global};
use text_lines::next_line;

/// Names, each with its value.
pub(crate) type Names<'a> = IndexMap<&'a [u8], u32, TextHash>;

/// The value of a name.
pub(crate) fn value_named(names: &Names<'_>, name: &[u8]) -> Option<u32>
    ensures { result ≡ kept_value names.now.entries name.now }
{
    names.get(name).copied()
}

/// Gives a name its value, if it has none.
pub(crate) fn define<'a>(
    names: &mut Names<'a>,
    name: &'a [u8],
    value: u32,
) -> Result<(), AllocError>
    ensures { OnOk result ((other : List ℕ) → kept_value names.new.entries other
        ≡ option_or (kept_value names.old.entries other) (if bytes_eq other name.now then Some value else None)) }
{
    if names.get(name).is_none() {
        names.insert(name, value)?;
    }
    Ok(())
}

/// Gives a name its value, if it has none and may be defined.
fn define_free<'a>(names: &mut Names<'a>, name: &'a [u8], value: u32) -> Result<(), AllocError>
    ensures { OnOk result ((other : List ℕ) → kept_value names.new.entries other
        ≡ option_or (kept_value names.old.entries other)
        (value_named (filter (λ definition. not (is_reserved definition.name))
        (record { name = name.now; value = value } ∷ [])) other)) }
{
    if is_reserved(name) {
        return Ok(());
    }
    define(names, name, value)
}

/// Gives its value to each name that a line defines, if it has none.
pub(crate) fn define_names<'a>(
    names: &mut Names<'a>,
    line: Line<'a>,
    start: u32,
) -> Result<(), AllocError>
    ensures { OnOk result ((other : List ℕ) → kept_value names.new.entries other
        ≡ option_or (kept_value names.old.entries other) (value_named (defined
        (record { start = start; line = line_seen line.entry })) other)) }
{
    if let Some(label) = line.label {
        define_free(names, label, start)?;
    }
    if let Statement::Equate(name, number) = line.statement {
        define_free(names, name, number)?;
    }
    Ok(())
}

/// The names of a text, each with its value.
pub(crate) fn names_in<'a>(alloc: Global, text: &'a [u8]) -> Result<Names<'a>, AllocError>
    ensures { IfOk result (λ names. (name : List ℕ) → kept_value names.entries name
        ≡ value_named (definitions (kept_places 0 (map kept_line (lines text.now)))) name) }
{
    let mut names = IndexMap::with_hasher(alloc, TextHash::of(text));
    let mut place = 0;
    let mut rest = text;
    while let Some((line, more)) = next_line(rest) {
        let line = line_of(line);
        let start = start_of(place, line.statement);
        define_names(&mut names, line, start)?;
        place = place_after(start, line.statement);
        rest = more;
    }
    Ok(names)
}
