//! The lines of a key file. Stamps are in cycles.

ghost use Rattle.std.specs.Prelude.{◌≡◌, ◌++◌, OnOk};
ghost use Rattle.key_lines.specs.Lines.{comment_line, key_line, press_line, release_line, word_line};

use layout_reader::Entry;
use pc_tables::name_of;
use std::alloc::AllocError;

/// Appends a line of a word alone. An error if memory runs out.
pub fn push_word(text: &mut Vec<u8>, stamp: u64, word: &[u8]) -> Result<(), AllocError>
    ensures line { OnOk result (text.new.items ≡ text.old.items ++ word_line stamp word.now) }
{
    text.extend_from_slice(itoa::Buffer::new().format(stamp).as_bytes())?;
    text.extend_from_slice(b" ")?;
    text.extend_from_slice(word)?;
    text.extend_from_slice(b"\n")?;
    Ok(())
}

/// Appends a line of a word and a key, which has the name of its entry's key.
fn push_key(text: &mut Vec<u8>, stamp: u64, word: &[u8], entry: &Entry) -> Result<(), AllocError>
    ensures { OnOk result (text.new.items ≡ text.old.items ++ key_line stamp word.now entry.now) }
{
    text.extend_from_slice(itoa::Buffer::new().format(stamp).as_bytes())?;
    text.extend_from_slice(b" ")?;
    text.extend_from_slice(word)?;
    text.extend_from_slice(b" ")?;
    text.extend_from_slice(name_of(entry.key).as_bytes())?;
    text.extend_from_slice(b"\n")?;
    Ok(())
}

/// Appends the line of a key that goes down. An error if memory runs out.
pub fn push_press(text: &mut Vec<u8>, stamp: u64, entry: &Entry) -> Result<(), AllocError>
    ensures line { OnOk result (text.new.items ≡ text.old.items ++ press_line stamp entry.now) }
{
    push_key(text, stamp, b"press", entry)
}

/// Appends the line of a key that goes up. An error if memory runs out.
pub fn push_release(text: &mut Vec<u8>, stamp: u64, entry: &Entry) -> Result<(), AllocError>
    ensures line { OnOk result (text.new.items ≡ text.old.items ++ release_line stamp entry.now) }
{
    push_key(text, stamp, b"release", entry)
}

/// Appends a comment. An error if memory runs out.
pub fn push_comment(text: &mut Vec<u8>, comment: &[u8]) -> Result<(), AllocError>
    ensures line { OnOk result (text.new.items ≡ text.old.items ++ comment_line comment.now) }
{
    text.extend_from_slice(b"# ")?;
    text.extend_from_slice(comment)?;
    text.extend_from_slice(b"\n")?;
    Ok(())
}
