//! Numbers as upper-case hexadecimal digits, as every text of the program writes them, and the value of a digit of
//! either case, if one is read. Our own.
//!
//! Texts of bounded length, which take no memory, are made of pieces (`pieces`). This layer knows digits and bytes. It knows
//! no line, no format and no file.
#![tactic(auto)]

ghost use Rattle.std.specs.Prelude.{◌≡◌, ◌<◌, Some, IfSome};
ghost use Rattle.hex_text.specs.Digits.{hex_digit, digit_value, hex_byte, hex_address, hex_word};

mod pieces;

pub use pieces::{append, begun};

/// The character of a digit below 16: `0` to `9`, then `A` to `F`. Its value is the number again.
pub fn digit(value: u8) -> u8
    requires small { value < 16 }
    ensures character { result ≡ hex_digit value }
    ensures back { digit_value result ≡ Some value }
{
    if value < 10 {
        b'0' + value
    } else {
        b'A' + (value - 10)
    }
}

/// The value, 0 to 15, of a hexadecimal digit: `0` to `9`, or `A` to `F` in either case. None for any other character.
pub fn digit_value(character: u8) -> Option<u8>
    ensures value { result ≡ digit_value character }
    ensures below { IfSome result (λ value. value < 16) }
{
    match character {
        b'0'..=b'9' => Some(character - b'0'),
        b'A'..=b'F' => Some(character - b'A' + 10),
        b'a'..=b'f' => Some(character - b'a' + 10),
        _ => None,
    }
}

/// The two digits of a byte.
pub fn byte(value: u8) -> [u8; 2]
    ensures digits { result ≡ hex_byte value }
{
    [digit(value / 16), digit(value % 16)]
}

/// The three digits of an address of 12 bits. Of a greater number they are the low three digits.
pub fn address(value: u16) -> [u8; 3]
    ensures digits { result ≡ hex_address value }
{
    let [high, low] = byte((value % 256) as u8);
    [digit((value / 256 % 16) as u8), high, low]
}

/// The four digits of a word.
pub fn word(value: u16) -> [u8; 4]
    ensures digits { result ≡ hex_word value }
{
    let [first, second] = byte((value / 256) as u8);
    let [third, fourth] = byte((value % 256) as u8);
    [first, second, third, fourth]
}
