//! The lines of what is found on the wires.

ghost use Rattle.std.specs.Prelude.{◌≡◌, ◌+◌, ◌≤◌, ◌++◌, length};
ghost use Rattle.arrayvec.specs.ArrayVec.{array_vec_len};
ghost use Rattle.capture_lines.specs.Lines.{byte_text, digit, again_line, finding_line, finding_text, part_text, sender, time_text, wrong};

use arrayvec::ArrayVec;
use capture_frames::{Finding, Timed, Whole};
use hex_text::{append, begun};

/// The line of a finding. None is longer.
pub(crate) type LineText = ArrayVec<u8, 128>;

/// The last decimal digit of a number.
pub(crate) fn digit(number: u64) -> u8
    ensures { result ≡ digit number }
{
    b'0' + (number % 10) as u8
}

/// A time of so many nanoseconds in microseconds, with three decimals, and a blank.
pub(crate) fn time_text(time: u64) -> LineText
    ensures text { result.items ≡ time_text time }
    ensures short { array_vec_len result ≤ 45 }
{
    let mut text = begun(itoa::Buffer::new().format(time / 1_000).as_bytes());
    append(
        &mut text,
        &[b'.', digit(time / 100), digit(time / 10), digit(time), b' '],
    );
    text
}

/// Appends who sends a frame.
fn push_sender(text: &mut LineText, from_host: bool)
    requires room { array_vec_len text.old + 9 ≤ 128 }
    ensures text { text.new.items ≡ text.old.items ++ sender from_host }
    ensures short { array_vec_len text.new ≤ array_vec_len text.old + 9 }
{
    if from_host {
        append(text, b"host ");
    } else {
        append(text, b"keyboard ");
    }
}

/// Appends what is wrong, unless it is right.
fn push_unless(text: &mut LineText, is_right: bool, fault: &[u8])
    requires room { array_vec_len text.old + length fault.now ≤ 128 }
    ensures text { text.new.items ≡ text.old.items ++ wrong is_right fault.now }
    ensures short { array_vec_len text.new ≤ array_vec_len text.old + length fault.now }
{
    if !is_right {
        append(text, fault);
    }
}

/// Appends a frame of eleven edges.
fn push_byte(text: &mut LineText, frame: Whole)
    requires room { array_vec_len text.old + 70 ≤ 128 }
    ensures text { text.new.items ≡ text.old.items ++ byte_text frame }
    ensures short { array_vec_len text.new ≤ array_vec_len text.old + 70 }
{
    push_sender(text, frame.from_host);
    append(text, &hex_text::byte(frame.byte));
    push_unless(text, frame.start, b", wrong start");
    push_unless(text, frame.parity, b", wrong parity");
    push_unless(text, frame.stop, b", wrong stop");
    push_unless(text, frame.acknowledged, b", not acknowledged");
}

/// Appends a frame that isn't whole.
fn push_part(text: &mut LineText, from_host: bool, what: &[u8], edges: u8)
    requires room { array_vec_len text.old + 70 ≤ 128 }
    requires few { length what.now ≤ 17 }
    ensures text { text.new.items ≡ text.old.items ++ part_text from_host what.now edges }
    ensures short { array_vec_len text.new ≤ array_vec_len text.old + 79 }
{
    push_sender(text, from_host);
    append(text, what);
    append(text, itoa::Buffer::new().format(edges).as_bytes());
    append(text, b" of 11 edges");
}

/// Appends a finding.
fn push_finding(text: &mut LineText, finding: Finding)
    requires room { array_vec_len text.old + 79 ≤ 128 }
    ensures text { text.new.items ≡ text.old.items ++ finding_text finding }
    ensures short { array_vec_len text.new ≤ array_vec_len text.old + 79 }
{
    match finding {
        Finding::Byte(frame) => push_byte(text, frame),
        Finding::Few(from_host, edges) => push_part(text, from_host, b"only ", edges),
        Finding::Cut(from_host, edges) => push_part(text, from_host, b"broken off after ", edges),
        Finding::Unfinished(from_host, edges) => {
            push_part(text, from_host, b"unfinished after ", edges)
        }
        Finding::Stray => append(text, b"edge without a start bit"),
        Finding::Glitch => append(text, b"pulse too short"),
        Finding::Hold(true) => append(text, b"hold and request"),
        Finding::Hold(false) => append(text, b"hold"),
        Finding::StaysLow => append(text, b"clock stays low"),
    }
}

/// The line of a finding.
pub(crate) fn finding_line(timed: Timed) -> LineText
    ensures { result.items ≡ finding_line timed }
{
    let mut text = time_text(timed.time);
    push_finding(&mut text, timed.finding);
    append(&mut text, b"\n");
    text
}

/// The line of a byte that is asked for again at this time.
pub(crate) fn again_line(time: u64, byte: u8) -> LineText
    ensures { result.items ≡ again_line time byte }
{
    let mut text = time_text(time);
    append(&mut text, b"asks for ");
    append(&mut text, &hex_text::byte(byte));
    append(&mut text, b" again\n");
    text
}
