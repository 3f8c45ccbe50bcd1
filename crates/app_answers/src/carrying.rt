//! `step`, `list`, `asm` and `compile`: what a command says of the bytes of its file.

ghost use Rattle.std.specs.Prelude.{◌≡◌, ◌≤◌, length, Ok};
ghost use Rattle.app_answers.specs.Answers.{answer_of, MayAnswerOf};
ghost use Rattle.app_answers.specs.FileAnswers.{assembled, compiled, file_said};
ghost use Rattle.app_words.specs.declared.kind.Kind.{Kind};
ghost use Rattle.app_words.specs.Kinds.{kind_of, limit_of};
ghost use Rattle.layout_reader.specs.Documents.{layout_of_document};
ghost use Rattle.mcs48_asm.specs.Assembly.{assembly_of};
ghost use Rattle.mcs48_isa.specs.Listing.{listing_of};

use crate::judging::{image_in, layout_in};
use crate::stepping::step;
use app_words::{FileCommand, Refusal};
use fw_compile::compile;
use hexfile::write_hex;
use mcs48_asm::{AsmFault, assemble};
use mcs48_isa::{Image, list};
use std::alloc::Global;

/// The listing of an image.
fn listing(alloc: Global, image: &Image) -> Result<Vec<u8>, Refusal>
    ensures { MayAnswerOf (Ok (listing_of image.now.bytes)) (answer_of result) }
{
    list(alloc, image).map_err(|_| Refusal::Memory)
}

/// The HEX text of a source's image.
fn assembled(alloc: Global, source: &[u8]) -> Result<Vec<u8>, Refusal>
    requires { length source.now ≤ limit_of Kind.Asm }
    ensures { MayAnswerOf (assembled (assembly_of source.now)) (answer_of result) }
{
    match assemble(alloc, source) {
        Err(AsmFault::Line { line, number }) => Err(Refusal::Asm { line, number }),
        Err(AsmFault::Memory) => Err(Refusal::Memory),
        Ok(image) => write_hex(alloc, &image).map_err(|_| Refusal::Memory),
    }
}

/// The HEX text of a layout's image.
fn compiled(alloc: Global, document: &[u8]) -> Result<Vec<u8>, Refusal>
    ensures { MayAnswerOf (compiled (layout_of_document document.now)) (answer_of result) }
{
    let layout = layout_in(alloc, document)?;
    write_hex(alloc, &compile(&layout)).map_err(|_| Refusal::Memory)
}

/// Carries a command out over the bytes of its file.
pub fn carry_out(alloc: Global, command: FileCommand, file: &[u8]) -> Result<Vec<u8>, Refusal>
    requires { length file.now ≤ limit_of (kind_of command) }
    ensures { MayAnswerOf (file_said command file.now) (answer_of result) }
{
    match command {
        FileCommand::Step { count } => step(alloc, &image_in(file)?, count),
        FileCommand::Listing => listing(alloc, &image_in(file)?),
        FileCommand::Assemble => assembled(alloc, file),
        FileCommand::Compile => compiled(alloc, file),
    }
}
