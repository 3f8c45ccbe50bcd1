//! The program memory while a file fills it.

ghost use Rattle.std.specs.Prelude.{◌≡◌, ◌∷◌, [], false, is_some};
ghost use Rattle.std.specs.List.{list_any};
ghost use Rattle.hexfile.specs.Memory.{is_past, is_given_twice, with_data, image_of};
ghost use Rattle.hexfile.specs.Record.{said_by};
ghost use Rattle.hexfile.specs.Rules.{first_broken};

use crate::fault::Rule;
use crate::record::Record;
use mcs48_isa::{Image, PLACES};

/// Each place with the byte that the file gave to it, or none.
pub(crate) type Memory = [Option<u8>; PLACES];

/// Whether one of these places has a byte.
fn is_any_given(cells: &[Option<u8>]) -> bool
    ensures { result ≡ list_any is_some cells.now }
{
    cells.iter().any(|cell| cell.is_some())
}

/// The rule by which a line's data can't be put from its address on, if there is one.
pub(crate) fn data_breaks(memory: &Memory, line: &Record) -> Option<Rule>
    ensures { result ≡ first_broken ((Rule.Address, is_past (said_by line.now)) ∷ (Rule.Overlap, is_given_twice memory.now (said_by line.now)) ∷ []) }
{
    if line.bytes.is_empty() {
        return None;
    }
    let first = usize::from(line.address);
    let end = first + line.bytes.len();
    if end > PLACES {
        return Some(Rule::Address);
    }
    if is_any_given(&memory[first..end]) {
        return Some(Rule::Overlap);
    }
    None
}

/// Puts a line's data from its address on.
pub(crate) fn place(memory: &mut Memory, line: &Record)
    requires { is_past (said_by line.now) ≡ false }
    ensures { memory.new ≡ with_data memory.old (said_by line.now) }
{
    if line.bytes.is_empty() {
        return;
    }
    let address = usize::from(line.address);
    for (offset, byte) in line.bytes.iter().enumerate() {
        memory[address + offset] = Some(*byte);
    }
}

/// The image of a memory: a place that has no byte is 00.
pub(crate) fn image_of(memory: &Memory) -> Image
    ensures { result.bytes ≡ image_of memory.now }
{
    let mut bytes = [0; PLACES];
    for (place, cell) in memory.iter().enumerate() {
        bytes[place] = cell.unwrap_or(0);
    }
    Image { bytes }
}
