//! Writing a HEX file.

ghost use Rattle.std.specs.Prelude.{◌≡◌, ◌<◌, ◌≤◌, ◌++◌, ◌==◌, All, Ok, OnOk, IfOk, length};
ghost use Rattle.std.specs.List.{flat_map, list_all};
ghost use Rattle.hex_text.specs.Digits.{hex_byte};
ghost use Rattle.hexfile.specs.Hex.{hex_of};
ghost use Rattle.hexfile.specs.Spelling.{sum_byte, line_text, row_text, rows_text, hex_text_of};

use crate::record::total_of;
use mcs48_isa::Image;
use std::alloc::{AllocError, Global};

/// The places of a row.
const ROW: usize = 16;

/// Appends two digits for each byte.
fn push_bytes(text: &mut Vec<u8>, bytes: &[u8]) -> Result<(), AllocError>
    ensures { OnOk result (text.new.items ≡ text.old.items ++ flat_map hex_byte bytes.now) }
{
    for byte in bytes {
        text.extend_from_slice(&hex_text::byte(*byte))?;
    }
    Ok(())
}

/// The sum byte of a line with these bytes before its data.
fn sum_byte(head: &[u8], bytes: &[u8]) -> u8
    ensures { result ≡ sum_byte (head.now ++ bytes.now) }
{
    0u8.wrapping_sub(total_of(head).wrapping_add(total_of(bytes)))
}

/// Appends a line with these bytes before its data.
fn push_line(text: &mut Vec<u8>, head: &[u8], bytes: &[u8]) -> Result<(), AllocError>
    ensures { OnOk result (text.new.items ≡ text.old.items ++ line_text (head.now ++ bytes.now)) }
{
    text.extend_from_slice(b":")?;
    push_bytes(text, head)?;
    push_bytes(text, bytes)?;
    push_bytes(text, &[sum_byte(head, bytes)])?;
    text.extend_from_slice(b"\n")
}

/// Whether each of these bytes is 00.
fn is_blank(row: &[u8]) -> bool
    ensures { result ≡ list_all (λ byte. byte == 0) row.now }
{
    row.iter().all(|byte| *byte == 0)
}

/// Appends the data line of a row, if it holds a byte other than 00.
fn push_row(text: &mut Vec<u8>, place: u16, row: &[u8]) -> Result<(), AllocError>
    ensures { OnOk result (text.new.items ≡ text.old.items ++ row_text place row.now) }
{
    if is_blank(row) {
        return Ok(());
    }
    let head = [16, (place / 256) as u8, (place % 256) as u8, 0];
    push_line(text, &head, row)
}

/// Appends the data lines of the 128 rows.
fn push_rows(text: &mut Vec<u8>, bytes: &[u8; 2048]) -> Result<(), AllocError>
    ensures rows { OnOk result (text.new.items ≡ text.old.items ++ rows_text bytes.now) }
    ensures bytes { OnOk result (All (λ byte. byte < 256) bytes.now) }
{
    for row in 0..128 {
        let first = ROW * row;
        push_row(text, first as u16, &bytes[first..first + ROW])?;
    }
    Ok(())
}

/// The HEX text of a program memory: for each of the 128 rows of 16 places, in order, that holds a byte other than 00,
/// one data line of 16 bytes; then the end line `:00000001FF`. Digits are upper case, and each line ends with LF. The
/// text has at most 5,644 bytes, and `read_hex` of it gives the same memory. `AllocError` if memory runs out.
///
/// Source: our own spelling of Intel HEX (Intel, Hexadecimal Object File Format Specification).
pub fn write_hex(alloc: Global, image: &Image) -> Result<Vec<u8>, AllocError>
    ensures text { IfOk result (λ text. text.items ≡ hex_text_of image.now.bytes) }
    ensures back { IfOk result (λ text. hex_of text.items ≡ Ok image.now.bytes) }
    ensures within { IfOk result (λ text. length text.items ≤ 5644) }
{
    let mut text = Vec::new(alloc);
    push_rows(&mut text, &image.bytes)?;
    text.extend_from_slice(b":00000001FF\n")?;
    Ok(text)
}
