//! From a text to its image.

ghost use Rattle.std.specs.Prelude.{◌≡◌, ◌≤◌, List, ℕ, Ok, length, map, IfOk};
ghost use Rattle.std.specs.Char.{to_ascii_uppercase};
ghost use Rattle.std.specs.Str.Lines.{lines};
ghost use Rattle.mcs48_asm.specs.Assembly.{outcome_of, assembly_of};
ghost use Rattle.mcs48_asm.specs.Capped.{kept_places};
ghost use Rattle.mcs48_asm.specs.Kept.{kept_line, kept_value};
ghost use Rattle.mcs48_asm.specs.Answers.{IsOutcome};
ghost use Rattle.mcs48_isa.specs.Memory.{IsMemory};
ghost use Rattle.mcs48_isa.specs.Listing.{listing_of};

use crate::fault::AsmFault;
use crate::faults::fault_of;
use crate::filling::fill;
use crate::line::line_of;
use crate::names::{Names, define_names, names_in};
use crate::places::{place_after, start_of};
use crate::text_hash::TextHash;
use indexmap::IndexMap;
use mcs48_isa::{Image, PLACES};
use std::alloc::{AllocError, Global};
use text_lines::next_line;

/// The image of lines, or their first fault, if names mean this.
fn outcome_of<'a>(alloc: Global, names: &Names<'a>, text: &'a [u8]) -> Result<Image, AsmFault>
    requires { length text.now ≤ 262144 }
    ensures { IsOutcome result (outcome_of (kept_value names.now.entries)
        (kept_places 0 (map kept_line (lines text.now)))) }
{
    let mut seen = IndexMap::with_hasher(alloc, TextHash::of(text));
    let mut bytes = [0; PLACES];
    let mut filled = [false; PLACES];
    let mut place = 0;
    let mut number = 0;
    let mut rest = text;
    while let Some((line, more)) = next_line(rest) {
        let line = line_of(line);
        let start = start_of(place, line.statement);
        number += 1;
        if let Some(flaw) = fault_of(names, &seen, &filled, line, start) {
            return Err(AsmFault::Line {
                line: number,
                number: flaw.number(),
            });
        }
        define_names(&mut seen, line, start)?;
        fill(alloc, names, line, start, &mut bytes, &mut filled)?;
        place = place_after(start, line.statement);
        rest = more;
    }
    Ok(Image { bytes })
}

/// A text with its letters in upper case.
fn upper_case(alloc: Global, text: &[u8]) -> Result<Vec<u8>, AllocError>
    ensures { IfOk result (λ upper. upper.items ≡ map to_ascii_uppercase text.now) }
{
    text.iter()
        .map(|character| character.to_ascii_uppercase())
        .collect(alloc)
}

/// The program memory that an assembler text fills, a place that no line fills being 00; or the first line that has a
/// fault, with the lowest number of its faults. The text has at most 262,144 bytes. The listing of a program memory
/// gives that memory. `AsmFault::Memory` if memory runs out.
///
/// Source: the texts of the MCS-48 Family User's Manual, instruction set; the form of lines is our own.
pub fn assemble(alloc: Global, text: &[u8]) -> Result<Image, AsmFault>
    requires size { length text.now ≤ 262144 }
    ensures outcome { IsOutcome result (assembly_of text.now) }
    ensures listing { (memory : List ℕ) → IsMemory memory → text.now ≡ listing_of memory
        → IsOutcome result (Ok memory) }
{
    let upper = upper_case(alloc, text)?;
    let names = names_in(alloc, upper.as_slice())?;
    outcome_of(alloc, &names, upper.as_slice())
}
