//! What a line says.

ghost use Rattle.std.specs.Prelude.{◌≡◌, ◌≤◌, ◌%◌, length, sum};
ghost use Rattle.std.specs.Option.{option_map};
ghost use Rattle.hexfile.specs.Record.{bytes_of, record_of, said_by};

use arrayvec::ArrayVec;

/// The most bytes of a line: the count, the address, the type, 255 bytes of data and the sum byte.
pub(crate) const LONGEST: usize = 260;

/// What a line says: where its data are, of which type it is, and the data.
#[derive(Drop)]
pub(crate) struct Record<'a> {
    /// The place of the first byte of data, 0 to 65,535.
    pub(crate) address: u16,
    /// The type of the line, 0 to 255.
    pub(crate) kind: u8,
    /// The data, 0 to 255 bytes.
    pub(crate) bytes: &'a [u8],
    /// The sum of all bytes of the line modulo 256, which is 0 if the line came through unharmed.
    pub(crate) total: u8,
}

/// The bytes that pairs of digits write. None if a character is no digit, or a digit is left over.
pub(crate) fn decoded(digits: &[u8]) -> Option<ArrayVec<u8, LONGEST>>
    requires { length digits.now ≤ 520 }
    ensures { option_map (λ bytes. bytes.items) result ≡ bytes_of digits.now }
{
    let mut bytes = ArrayVec::new();
    let mut rest = digits;
    while let [high, low, more @ ..] = rest {
        let high = hex_text::digit_value(*high)?;
        let low = hex_text::digit_value(*low)?;
        bytes.push(16 * high + low);
        rest = more;
    }
    rest.is_empty().then_some(bytes)
}

/// The sum of bytes modulo 256.
pub(crate) fn total_of(bytes: &[u8]) -> u8
    ensures { result ≡ sum bytes.now % 256 }
{
    let mut total = 0u8;
    for byte in bytes {
        total = total.wrapping_add(*byte);
    }
    total
}

/// The record that a line's bytes give. None if there are more or fewer bytes than the count says.
pub(crate) fn parsed(line: &[u8]) -> Option<Record<'_>>
    ensures { option_map said_by result ≡ record_of line.now }
{
    let [count, high, low, kind, rest @ ..] = line else {
        return None;
    };
    let count = usize::from(*count);
    if rest.len() != count + 1 {
        return None;
    }
    Some(Record {
        address: u16::from(*high) * 256 + u16::from(*low),
        kind: *kind,
        bytes: &rest[..count],
        total: total_of(line),
    })
}
