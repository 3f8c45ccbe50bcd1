//! The listing of a program memory: one line an instruction, or a byte that begins none.
//!
//! Source: our own.

ghost use Rattle.std.specs.Prelude.{◌≡◌, ◌<◌, ◌≤◌, ◌+◌, ◌++◌, ◌∷◌, [], OnOk, IfOk, IfSome, length};
ghost use Rattle.std.specs.Option.{ForSome};
ghost use Rattle.mcs48_isa.specs.Listing.{end_of, instruction_at, size_of, statement_of, listing_of};
ghost use Rattle.mcs48_isa.specs.Operands.{IsOp};

use crate::decoding::decode;
use crate::image::Image;
use crate::op_texts::{push_op, push_value};
use crate::operation::Decoded;
use std::alloc::{AllocError, Global};

/// The place after the last byte other than 00; 0 if each byte is 00.
fn listing_end(bytes: &[u8; 2048]) -> usize
    ensures end { result ≡ end_of bytes.now }
    ensures within { result ≤ 2048 }
{
    let mut end = 0;
    for (place, byte) in bytes.iter().enumerate() {
        if *byte != 0 {
            end = place + 1;
        }
    }
    end
}

/// The instruction that begins at a place, if it is one and all its bytes are at places below 2,048.
fn instruction(bytes: &[u8; 2048], place: usize) -> Option<Decoded>
    requires { place < 2048 }
    ensures found { result ≡ instruction_at bytes.now place }
    ensures operands { IfSome result (λ d. IsOp d.op) }
    ensures whole { IfSome result (λ d. 0 < d.len) }
    ensures within { IfSome result (λ d. place + d.len ≤ 2048) }
{
    let next = place + 1;
    let second = if next < 2048 { bytes[next] } else { 0 };
    let row = decode([bytes[place], second])?;
    if place + row.len as usize <= 2048 {
        Some(row)
    } else {
        None
    }
}

/// The places that a line takes.
fn line_size(instruction: Option<Decoded>) -> usize
    ensures { result ≡ size_of instruction }
{
    match instruction {
        Some(row) => row.len as usize,
        None => 1,
    }
}

/// Appends an instruction's text, or `DB` and the byte.
fn push_statement(
    text: &mut Vec<u8>,
    instruction: Option<Decoded>,
    byte: u8,
    place: u16,
) -> Result<(), AllocError>
    requires operands { ForSome instruction (λ d. IsOp d.op) }
    requires within { place < 2048 }
    ensures { OnOk result (text.new.items ≡ text.old.items ++ statement_of instruction byte place) }
{
    match instruction {
        Some(row) => push_op(text, row.op, place),
        None => push_value(text, b"DB ", byte),
    }
}

/// The listing of a program memory, from place 0 to the last place that holds a byte other than 00, one line each: the
/// text of the instruction that the place's byte begins, as `op_text` writes it, if all its bytes are at places below
/// 2,048; else `DB` and the byte. Each line ends with LF. A memory of zeros has no line. The text has at most 28,672 bytes,
/// and assembling it gives the same memory. `AllocError` if memory runs out.
///
/// Source: our own.
pub fn list(alloc: Global, image: &Image) -> Result<Vec<u8>, AllocError>
    ensures text { IfOk result (λ text. text.items ≡ listing_of image.now.bytes) }
    ensures within { IfOk result (λ text. length text.items ≤ 28672) }
{
    let end = listing_end(&image.bytes);
    let mut text = Vec::new(alloc);
    let mut place = 0;
    while place < end {
        let row = instruction(&image.bytes, place);
        push_statement(&mut text, row, image.bytes[place], place as u16)?;
        text.extend_from_slice(b"\n")?;
        place += line_size(row);
    }
    Ok(text)
}
