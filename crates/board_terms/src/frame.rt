//! A byte on the wires.

ghost use Rattle.std.specs.Prelude.{◌≡◌, ◌<◌, ◌≤◌, ◌^◌, ◌↔◌, false, length, IsNone, IfSome, Some};
ghost use Rattle.board_terms.specs.Bits.{data_bits, is_odd as is_odd_of, value as value_of};
ghost use Rattle.board_terms.specs.Frame.{byte_of as byte_in, frame_bits, is_right as is_right_of};

/// The eleven bits of a byte on the data wire, in the order in which they pass: the start bit 0, eight data bits with
/// the lowest first, the parity bit, the stop bit 1. Data and parity have an odd number of ones. Source: PC/AT
/// Technical Reference, keyboard data stream.
#[derive(Clone, Copy, Debug, PartialEq, Eq)]
pub struct Frame {
    /// The bits by number, from the start bit, 0, to the stop bit, 10.
    pub bits: [bool; 11],
}

/// The frame of a byte. `byte_of` gives the byte back.
pub fn frame_of(byte: u8) -> Frame
    ensures bits { result.bits ≡ frame_bits byte }
    ensures read_back { byte_in result.bits ≡ Some byte }
{
    let [b0, b1, b2, b3, b4, b5, b6, b7] = data_of(byte);
    let parity = !is_odd(&[b0, b1, b2, b3, b4, b5, b6, b7]);
    Frame {
        bits: [false, b0, b1, b2, b3, b4, b5, b6, b7, parity, true],
    }
}

/// The byte of a frame; None exactly if start, parity or stop is wrong. It is a byte only if the frame is that
/// byte's.
#[tactic(auto, unfolding(crate::specs::Frame::byte_of))]
pub fn byte_of(f: Frame) -> Option<u8>
    ensures byte { result ≡ byte_in f.bits }
    ensures none { IsNone result ↔ (is_right_of f.bits ≡ false) }
    ensures only { IfSome result (λ byte. f.bits ≡ frame_bits byte) }
{
    if is_right(&f) {
        Some(value(&f.bits[1..9]))
    } else {
        None
    }
}

/// Whether start, parity and stop of a frame are right.
fn is_right(f: &Frame) -> bool
    ensures right { result ≡ is_right_of f.now.bits }
    ensures eleven { length f.now.bits ≡ 11 }
{
    !f.bits[0] && f.bits[10] && is_odd(&f.bits[1..10])
}

/// The bits of a byte, the lowest first.
fn data_of(byte: u8) -> [bool; 8]
    ensures { result ≡ data_bits byte }
{
    [
        byte & 0x01 != 0,
        byte & 0x02 != 0,
        byte & 0x04 != 0,
        byte & 0x08 != 0,
        byte & 0x10 != 0,
        byte & 0x20 != 0,
        byte & 0x40 != 0,
        byte & 0x80 != 0,
    ]
}

/// The number that at most eight bits are, the lowest first.
fn value(bits: &[bool]) -> u8
    requires { length bits.now ≤ 8 }
    ensures value { result ≡ value_of bits.now }
    ensures range { result < 2 ^ length bits.now }
{
    match bits {
        [] => 0,
        [bit, rest @ ..] => 2 * value(rest) + *bit as u8,
    }
}

/// Whether an odd number of the bits are ones.
fn is_odd(bits: &[bool]) -> bool
    ensures { result ≡ is_odd_of bits.now }
{
    match bits {
        [] => false,
        [bit, rest @ ..] => *bit != is_odd(rest),
    }
}
