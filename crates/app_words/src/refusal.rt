//! Why a call printed one line in place of its text.

ghost use Rattle.std.specs.Prelude.{◌≡◌, ◌+◌, ◌≤◌, ◌++◌, codes, length};
ghost use Rattle.arrayvec.specs.ArrayVec.{array_vec_len};
ghost use Rattle.app_words.specs.Kinds.{name_of};
ghost use Rattle.app_words.specs.Refusals.{exit_of, fault_line, line_of, timing_line};

use crate::exit::Exit;
use crate::kind::Kind;
use arrayvec::ArrayVec;
use hex_text::{append, begun};
use hexfile::HexFault;
use mcs48_core::Stuck;

/// Why a call printed one line in place of its text.
#[derive(Clone, Copy, Debug, Drop)]
pub enum Refusal {
    /// The words have none of the accepted forms.
    Words,
    /// The shelf failed.
    Read,
    /// The file has more bytes than its kind may have.
    TooLong(Kind),
    /// The HEX file has this fault.
    Hex(HexFault),
    /// The line of the assembler source, counted from 1, and its fault.
    Asm {
        line: u32,
        number: u8,
    },
    /// The entry of the layout, counted from 1, or 0 for its top level, and its fault.
    Layout {
        entry: u32,
        number: u8,
    },
    /// The line of the key file, counted from 1, and its fault, which is none of time.
    Keys {
        line: u32,
        number: u8,
    },
    /// The line of the certificate, counted from 1, and its fault.
    Cert {
        line: u32,
        number: u8,
    },
    /// The line of the script, counted from 1, and its fault.
    Script {
        line: u32,
        number: u8,
    },
    /// The byte of the text, counted from 1, that has no key.
    Text {
        at: u32,
    },
    /// The line of the value change dump, counted from 1, and its fault.
    Vcd {
        line: u32,
        number: u8,
    },
    /// The line of the key file, counted from 1, its fault, which is one of time, and two stamps, in cycles.
    Timing {
        line: u32,
        number: u8,
        first: u64,
        second: u64,
    },
    /// A step met a byte without an instruction.
    Stuck(Stuck),
    /// Memory ran out.
    Memory,
}

/// A refusal's line. None is longer, and none takes memory.
pub type Line = ArrayVec<u8, 96>;

/// `input:` and the kind of the file.
fn input_line(kind: Kind) -> Line
    ensures { result.items ≡ codes "input: " ++ name_of kind }
{
    let mut line = begun(b"input: ");
    append(&mut line, kind.name().as_bytes());
    line
}

/// The line of a file with too many bytes.
fn long_line(kind: Kind) -> Line
    ensures { result.items ≡ line_of (Refusal.TooLong kind) }
{
    let mut line = input_line(kind);
    append(&mut line, b" too long\n");
    line
}

/// The line of a file's first fault, with the word for where it is.
fn fault_line(kind: Kind, unit: &str, at: u32, number: u8) -> Line
    requires { length unit.now ≤ 7 }
    ensures { result.items ≡ fault_line kind unit.now at number }
{
    let mut line = input_line(kind);
    append(&mut line, unit.as_bytes());
    append(&mut line, itoa::Buffer::new().format(at).as_bytes());
    append(&mut line, b" fault ");
    append(&mut line, itoa::Buffer::new().format(number).as_bytes());
    append(&mut line, b"\n");
    line
}

/// The line of a key file's first fault of time, with two stamps.
fn timing_line(line: u32, number: u8, first: u64, second: u64) -> Line
    ensures { result.items ≡ timing_line line number first second }
{
    let mut text = begun(b"timing: line ");
    append(&mut text, itoa::Buffer::new().format(line).as_bytes());
    append(&mut text, b" fault ");
    append(&mut text, itoa::Buffer::new().format(number).as_bytes());
    append(&mut text, b" stamps ");
    append(&mut text, itoa::Buffer::new().format(first).as_bytes());
    append(&mut text, b" ");
    append(&mut text, itoa::Buffer::new().format(second).as_bytes());
    append(&mut text, b"\n");
    text
}

/// The line of a byte without an instruction, and its place.
fn stuck_line(stuck: Stuck) -> Line
    ensures { result.items ≡ line_of (Refusal.Stuck stuck) }
{
    let mut line = begun(b"stuck: pc ");
    append(&mut line, &hex_text::address(stuck.pc));
    append(&mut line, b" byte ");
    append(&mut line, &hex_text::byte(stuck.byte));
    append(&mut line, b"\n");
    line
}

impl Refusal {
    /// The exit that it ends the call with.
    pub fn exit(&self) -> Exit
        ensures exit { result ≡ exit_of self.now }
    {
        match self {
            Refusal::Words => Exit::Words,
            Refusal::Read => Exit::Read,
            Refusal::TooLong(_)
            | Refusal::Hex(_)
            | Refusal::Asm { .. }
            | Refusal::Layout { .. }
            | Refusal::Keys { .. }
            | Refusal::Cert { .. }
            | Refusal::Script { .. }
            | Refusal::Text { .. }
            | Refusal::Vcd { .. } => Exit::Input,
            Refusal::Timing { .. } => Exit::Timing,
            Refusal::Stuck(_) => Exit::Stuck,
            Refusal::Memory => Exit::Memory,
        }
    }

    /// The line that is printed, with its LF.
    pub fn line(&self) -> Line
        ensures line { result.items ≡ line_of self.now }
    {
        match self {
            Refusal::Words => begun(b"words: not a command of kbd48\n"),
            Refusal::Read => begun(b"read: the shelf failed\n"),
            Refusal::TooLong(kind) => long_line(*kind),
            Refusal::Hex(fault) => fault_line(Kind::Hex, " line ", fault.line, fault.number),
            Refusal::Asm { line, number } => fault_line(Kind::Asm, " line ", *line, *number),
            Refusal::Layout { entry, number } => fault_line(
                Kind::Layout,
                " entry ",
                *entry,
                *number,
            ),
            Refusal::Keys { line, number } => fault_line(Kind::Keys, " line ", *line, *number),
            Refusal::Cert { line, number } => fault_line(Kind::Cert, " line ", *line, *number),
            Refusal::Script { line, number } => fault_line(Kind::Script, " line ", *line, *number),
            Refusal::Text { at } => fault_line(Kind::Text, " byte ", *at, 1),
            Refusal::Vcd { line, number } => fault_line(Kind::Vcd, " line ", *line, *number),
            Refusal::Timing {
                line,
                number,
                first,
                second,
            } => timing_line(*line, *number, *first, *second),
            Refusal::Stuck(stuck) => stuck_line(*stuck),
            Refusal::Memory => begun(b"memory: none left\n"),
        }
    }
}
