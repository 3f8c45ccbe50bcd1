//! The items of a log, and their texts.

ghost use Rattle.std.specs.Prelude.{◌≡◌, ◌+◌, ◌≤◌, ◌++◌, length, IfOk, is_ok, if◌then◌else◌};
ghost use Rattle.pc_tables.specs.Items.{line_of, text_of};

use arrayvec::ArrayVec;
use hex_text::{append, begun};
use std::alloc::{AllocError, Global};

/// One thing that the log says.
#[derive(Clone, Copy, Debug, PartialEq, Eq, Default)]
pub enum Item {
    /// A byte that INT 09h read.
    Port(u8),
    /// A byte that the host read from port 60h.
    Read(u8),
    /// A word entered into the buffer.
    Word(u16),
    /// A word that the full buffer had no room for, or the beep of an overrun.
    #[default]
    Beep,
    /// The keyboard's queue had overrun.
    Overrun,
    /// The lights are these now: Scroll as bit 0, Num as bit 1, Caps as bit 2. Its text shows the low digit.
    Lights(u8),
    /// The host took this word from the buffer, or found it empty.
    Taken(Option<u16>),
    /// The controller's status, as the host read it.
    Status(u8),
    /// The output port's new value.
    Output(u8),
    /// Output lines were pulsed: a 0 bit is pulsed. Its text shows the low digit.
    Pulse(u8),
    /// Ctrl with Scroll Lock emptied the buffer.
    Broke,
    /// Ctrl with Num Lock began a pause.
    Pause,
    /// A key ended the pause.
    Resume,
    /// Shift with the print key.
    Print,
    /// Ctrl, Alt and Del: the state is as at the start.
    Boot,
    /// The SysReq key went down.
    SysMake,
    /// The SysReq key went up.
    SysBreak,
}

/// The text of an item, without the tick before it and the line's end after it. None is longer.
type ItemText = ArrayVec<u8, 12>;

/// A name and the digits after it.
fn named(name: &[u8], digits: &[u8]) -> ItemText
    requires { length name.now + length digits.now ≤ 12 }
    ensures { result.items ≡ name.now ++ digits.now }
{
    let mut text = begun(name);
    append(&mut text, digits);
    text
}

/// The item's text, in upper-case hexadecimal.
fn spelled(item: Item) -> ItemText
    ensures { result.items ≡ text_of item }
{
    match item {
        Item::Port(byte) => named(b"port ", &hex_text::byte(byte)),
        Item::Read(byte) => named(b"read ", &hex_text::byte(byte)),
        Item::Word(word) => named(b"word ", &hex_text::word(word)),
        Item::Beep => begun(b"beep"),
        Item::Overrun => begun(b"overrun"),
        Item::Lights(value) => named(b"lights ", &[hex_text::digit(value % 16)]),
        Item::Taken(Some(word)) => named(b"taken ", &hex_text::word(word)),
        Item::Taken(None) => begun(b"taken none"),
        Item::Status(byte) => named(b"status ", &hex_text::byte(byte)),
        Item::Output(byte) => named(b"output ", &hex_text::byte(byte)),
        Item::Pulse(value) => named(b"pulse ", &[hex_text::digit(value % 16)]),
        Item::Broke => begun(b"break"),
        Item::Pause => begun(b"pause"),
        Item::Resume => begun(b"resume"),
        Item::Print => begun(b"print"),
        Item::Boot => begun(b"boot"),
        Item::SysMake => begun(b"sysreq make"),
        Item::SysBreak => begun(b"sysreq break"),
    }
}

/// The item's line in a log: the tick in decimal, a space, the item's text in upper-case hexadecimal, LF.
///
/// Source: the spelling of the log is our own.
pub fn item_line(tick: u32, item: Item) -> ArrayVec<u8, 32>
    ensures line { result.items ≡ line_of tick item }
{
    let mut line = begun(itoa::Buffer::new().format(tick).as_bytes());
    append(&mut line, b" ");
    append(&mut line, &spelled(item));
    append(&mut line, b"\n");
    line
}

/// Appends the item's text, in upper-case hexadecimal, without the tick before it and the line's end after it. If
/// memory runs out the text is as before.
pub fn push_item(text: &mut Vec<u8>, item: Item) -> Result<(), AllocError>
    ensures text { text.new.items ≡ (if is_ok result then text.old.items ++ text_of item else text.old.items) }
{
    text.extend_from_slice(&spelled(item))
}

/// The item's text, as `push_item` appends it. An error if memory runs out.
pub fn item_text(alloc: Global, item: Item) -> Result<Vec<u8>, AllocError>
    ensures text { IfOk result (λ text. text.items ≡ text_of item) }
{
    Vec::from_slice(alloc, &spelled(item))
}
