//! The keyboard bytes of `words`.

ghost use Rattle.std.specs.Prelude.{◌≡◌, ◌&&◌, nat_lt, nat_le, None, map, string_bytes, length, if◌then◌else◌};
ghost use Rattle.app_words.specs.Words.{byte_of, bytes_of};

use arrayvec::ArrayVec;
use std::marker::Model;

/// The most bytes that `words` takes.
const MOST_BYTES: usize = 4096;

/// At most 4,096 keyboard bytes, in the order of the words. A clause sees their list.
#[derive(Debug, Drop)]
pub struct KeyboardBytes {
    bytes: ArrayVec<u8, 4096>,
}

impl Model for KeyboardBytes {
    ghost use Rattle.std.specs.Prelude.{ℕ, List};

    ghost Value = { List ℕ };

    ghost view = { λ b. b.bytes.items };
}

/// The value of a BYTE, two hexadecimal digits of either case.
pub(crate) fn read_byte(word: &str) -> Option<u8>
    ensures { result ≡ byte_of word.now }
{
    match word.as_bytes() {
        [first, second] => {
            let high = hex_text::digit_value(*first)?;
            let low = hex_text::digit_value(*second)?;
            Some(16 * high + low)
        }
        _ => None,
    }
}

impl KeyboardBytes {
    /// The bytes that the words give; none if there are none or more than 4,096, or one of them is no BYTE.
    pub fn read(words: &[String]) -> Option<KeyboardBytes>
        ensures bytes { let texts = map string_bytes words.now in
            result ≡ (if nat_lt 0 (length texts) && nat_le (length texts) 4096 then bytes_of texts else None) }
    {
        if words.is_empty() || words.len() > MOST_BYTES {
            return None;
        }
        let mut bytes = ArrayVec::new();
        for word in words {
            bytes.push(read_byte(word)?);
        }
        Some(KeyboardBytes { bytes })
    }

    /// The bytes, in order.
    pub fn as_slice(&self) -> &[u8]
        ensures bytes { result.now ≡ self.now }
    {
        self.bytes.as_slice()
    }
}
