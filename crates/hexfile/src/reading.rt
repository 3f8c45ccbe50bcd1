//! Reading a HEX file.

ghost use Rattle.std.specs.Prelude.{◌≡◌, ◌≤◌, Ok, Err, length, IfOk, IfErr};
ghost use Rattle.std.specs.Option.{option_map, option_and_then};
ghost use Rattle.hexfile.specs.Record.{said_by, record_of, record_in};
ghost use Rattle.hexfile.specs.Hex.{hex_of, after_line, fault_at};

use crate::fault::{HexFault, Rule, number_of};
use crate::memory::image_of;
use crate::progress::{Progress, broken_by, obey};
use crate::record::{LONGEST, decoded, parsed};
use arrayvec::ArrayVec;
use mcs48_isa::{Image, PLACES};
use text_lines::next_line;

/// The bytes of a line. None if it has no record: it is no colon with pairs of digits, or has more of them than a
/// count can say.
fn line_bytes(line: &[u8]) -> Option<ArrayVec<u8, LONGEST>>
    ensures { option_and_then record_of (option_map (λ bytes. bytes.items) result) ≡ record_in line.now }
{
    let [b':', digits @ ..] = line else {
        return None;
    };
    if digits.len() > 2 * LONGEST {
        return None;
    }
    decoded(digits)
}

/// Does what a line says. The first rule that it breaks, with nothing done, if it breaks one.
fn take_line(progress: &mut Progress, line: &[u8]) -> Result<(), Rule>
    ensures done { IfOk result (λ _. after_line progress.old line.now ≡ Ok progress.new) }
    ensures broken { IfErr result (λ rule. after_line progress.old line.now ≡ Err rule) }
{
    if line.is_empty() {
        return Ok(());
    }
    let bytes = line_bytes(line).ok_or(Rule::Form)?;
    let said = parsed(bytes.as_slice()).ok_or(Rule::Form)?;
    if let Some(rule) = broken_by(progress, &said) {
        return Err(rule);
    }
    obey(progress, &said);
    Ok(())
}

/// A rule that a line breaks.
fn fault_at(line: u32, rule: Rule) -> HexFault
    ensures { result ≡ fault_at line rule }
{
    HexFault {
        line,
        number: number_of(rule),
    }
}

/// The program memory that a HEX text of at most 16,384 bytes gives. A place that no line gives is 00.
///
/// Lines end with LF, or with CR and LF; the last may have no end. An empty line says nothing. Any other line is
/// `:LLAAAATT`, LL bytes of data and a sum byte, in hexadecimal digits of either case (Intel, Hexadecimal Object File
/// Format Specification). Type 00 gives data. Type 01 with LL 00 ends the file. Types 02 and 04 must have the value
/// 0000. Types 03 and 05 have LL 04 and no effect.
///
/// Any other text is refused with the first line that breaks a rule, and the lowest number of a rule that it breaks:
/// 1 form, 2 sum, 3 type, 4 a byte of data past place 2,047, 5 a place that is given twice, 7 a line after the end. A
/// text without an end has number 6, at its number of lines plus one. It takes no memory.
pub fn read_hex(bytes: &[u8]) -> Result<Image, HexFault>
    requires size { length bytes.now ≤ 16384 }
    ensures image { IfOk result (λ image. hex_of bytes.now ≡ Ok image.bytes) }
    ensures fault { IfErr result (λ fault. hex_of bytes.now ≡ Err fault) }
{
    let mut progress = Progress {
        memory: [None; PLACES],
        ended: false,
    };
    let mut rest = bytes;
    let mut number = 1;
    while let Some((line, after)) = next_line(rest) {
        take_line(&mut progress, line).map_err(|rule| fault_at(number, rule))?;
        rest = after;
        number += 1;
    }
    if progress.ended {
        Ok(image_of(&progress.memory))
    } else {
        Err(fault_at(number, Rule::NoEnd))
    }
}
