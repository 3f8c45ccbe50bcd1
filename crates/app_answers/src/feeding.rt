//! `words`: keyboard bytes through the controller to INT 09h, and what it says.

ghost use Rattle.std.specs.Prelude.{◌≡◌, ◌++◌, false, true, IfOk, OnOk, Ok};
ghost use Rattle.ctl_core.specs.Translation.{after_received};
ghost use Rattle.app_answers.specs.Answers.{answer_of, MayAnswerOf};
ghost use Rattle.app_answers.specs.Feeding.{desk_after_read, said_of_read, items_of, line_of_item, lines_of, fed_text};

use app_words::Refusal;
use ctl_core::Controller;
use int09::Bios;
use pc_tables::{Item, push_item};
use std::alloc::{AllocError, Global};

/// Appends an item's line.
fn push_line(text: &mut Vec<u8>, item: Item) -> Result<(), AllocError>
    ensures { OnOk result (text.new.items ≡ text.old.items ++ line_of_item item) }
{
    push_item(text, item)?;
    text.push(b'\n')?;
    Ok(())
}

/// Appends a line an item.
fn push_lines(text: &mut Vec<u8>, items: &[Item]) -> Result<(), AllocError>
    ensures { OnOk result (text.new.items ≡ text.old.items ++ lines_of items.now) }
{
    for item in items {
        push_line(text, *item)?;
    }
    Ok(())
}

/// The controller receives a byte of the keyboard; if it puts one out, INT 09h reads it, and what is said is
/// appended.
fn hear(
    text: &mut Vec<u8>,
    controller: &mut Controller,
    bios: &mut Bios,
    byte: u8,
) -> Result<(), AllocError>
    requires { controller.old.output_full ≡ false }
    ensures empty { controller.new.output_full ≡ false }
    ensures controller { controller.new ≡ (desk_after_read (after_received controller.old byte true) bios.old).controller }
    ensures bios { bios.new ≡ (desk_after_read (after_received controller.old byte true) bios.old).bios }
    ensures said { OnOk result (text.new.items
        ≡ text.old.items ++ lines_of (said_of_read (after_received controller.old byte true) bios.old)) }
{
    controller.receive(byte, true);
    if !controller.output_full() {
        return Ok(());
    }
    let code = controller.host_read60();
    let items = bios.feed(code);
    push_line(text, Item::Port(code))?;
    push_lines(text, &items)
}

/// What is said of these bytes, to a controller and an INT 09h at their start.
fn text_of_bytes(alloc: Global, bytes: &[u8]) -> Result<Vec<u8>, AllocError>
    ensures { IfOk result (λ text. text.items ≡ fed_text bytes.now) }
{
    let mut controller = Controller::new();
    let mut bios = Bios::new(alloc)?;
    let mut text = Vec::new(alloc);
    for byte in bytes {
        hear(&mut text, &mut controller, &mut bios, *byte)?;
    }
    Ok(text)
}

/// What INT 09h says of keyboard bytes.
pub fn feed(alloc: Global, bytes: &[u8]) -> Result<Vec<u8>, Refusal>
    ensures says { MayAnswerOf (Ok (fed_text bytes.now)) (answer_of result) }
{
    text_of_bytes(alloc, bytes).map_err(|_| Refusal::Memory)
}
