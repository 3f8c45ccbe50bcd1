//! The text of the key file.

ghost use Rattle.std.specs.Prelude.{◌≡◌, ◌≤◌, ◌++◌, IfOk, OnOk};
ghost use Rattle.capture_keys.specs.KeyTexts.{key_text, line_text, lines_text, rest_text, unsent_text};

use crate::key_line::KeyLine;
use crate::keys::Keys;
use arrayvec::ArrayVec;
use hex_text::{append, begun};
use key_lines::{push_comment, push_press, push_release, push_word};
use std::alloc::{AllocError, Global};

/// The comment that names a code.
fn unsent_text(code: u8) -> ArrayVec<u8, 32>
    ensures { result.items ≡ unsent_text code }
{
    let mut text = begun(b"no key sends ");
    append(&mut text, &hex_text::byte(code));
    text
}

/// Appends a line.
fn push_line(text: &mut Vec<u8>, line: &KeyLine) -> Result<(), AllocError>
    ensures { OnOk result (text.new.items ≡ text.old.items ++ line_text line.now) }
{
    match line {
        KeyLine::Turned(entry, edge) if edge.down => push_press(text, edge.stamp, entry),
        KeyLine::Turned(entry, edge) => push_release(text, edge.stamp, entry),
        KeyLine::Unsent(code) => push_comment(text, &unsent_text(*code)),
    }
}

/// Appends lines.
fn push_lines(text: &mut Vec<u8>, lines: &[KeyLine]) -> Result<(), AllocError>
    ensures { OnOk result (text.new.items ≡ text.old.items ++ lines_text lines.now) }
{
    for line in lines {
        push_line(text, line)?;
    }
    Ok(())
}

/// Appends the comment that something found no room, if so.
fn push_rest(text: &mut Vec<u8>, keys: &Keys) -> Result<(), AllocError>
    ensures { OnOk result (text.new.items ≡ text.old.items ++ rest_text keys.now) }
{
    if keys.is_full() {
        push_comment(text, b"the rest found no room")?;
    }
    Ok(())
}

/// The key file.
#[tactic(auto, using(capture_lines::proofs::Parts::three))]
pub(crate) fn key_text(alloc: Global, keys: &Keys) -> Result<Vec<u8>, AllocError>
    requires early { keys.now.queue.ready ≤ 239979520 }
    ensures { IfOk result (λ text. text.items ≡ key_text keys.now) }
{
    let mut text = Vec::new(alloc);
    push_lines(&mut text, keys.lines())?;
    push_rest(&mut text, keys)?;
    push_word(&mut text, keys.end(), b"end")?;
    Ok(text)
}
