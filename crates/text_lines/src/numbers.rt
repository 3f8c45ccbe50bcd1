//! Numbers, as fields write them.

ghost use Rattle.std.specs.Prelude.{◌≡◌, ◌≤◌, ◌<◌, ◌^◌, length, IfSome};
ghost use Rattle.hex_text.specs.Digits.{digit_value};
ghost use Rattle.text_lines.specs.Numbers.{decimal_digit, number_after, decimal_of, hexadecimal_of};

/// The value, 0 to 9, of a decimal digit. None for any other character.
pub fn decimal_digit(character: u8) -> Option<u8>
    ensures value { result ≡ decimal_digit character }
    ensures below { IfSome result (λ value. value < 10) }
{
    match character {
        b'0'..=b'9' => Some(character - b'0'),
        _ => None,
    }
}

/// The number that decimal digits write, at most 9 of them. None if a character is no digit.
fn decimal_in(text: &[u8]) -> Option<u32>
    requires { length text.now ≤ 9 }
    ensures number { result ≡ number_after 10 decimal_digit 0 text.now }
    ensures below { IfSome result (λ number. number < 10 ^ length text.now) }
{
    let mut number = 0;
    for character in text {
        number = 10 * number + u32::from(decimal_digit(*character)?);
    }
    Some(number)
}

/// The number that hexadecimal digits of either case write, at most 8 of them. None if a character is no digit.
fn hexadecimal_in(text: &[u8]) -> Option<u32>
    requires { length text.now ≤ 8 }
    ensures number { result ≡ number_after 16 digit_value 0 text.now }
    ensures below { IfSome result (λ number. number < 16 ^ length text.now) }
{
    let mut number = 0;
    for character in text {
        number = 16 * number + u32::from(hex_text::digit_value(*character)?);
    }
    Some(number)
}

/// The number that a text of one to `most` decimal digits writes; None for every other text. Leading zeros count as
/// digits.
pub fn decimal(most: usize, text: &[u8]) -> Option<u32>
    requires few { most ≤ 9 }
    ensures number { result ≡ decimal_of most text.now }
    ensures below { IfSome result (λ number. number < 10 ^ most) }
{
    if text.is_empty() || text.len() > most {
        return None;
    }
    decimal_in(text)
}

/// The number that a text of exactly `count` hexadecimal digits of either case writes; None for every other text.
pub fn hexadecimal(count: usize, text: &[u8]) -> Option<u32>
    requires few { count ≤ 8 }
    ensures number { result ≡ hexadecimal_of count text.now }
    ensures below { IfSome result (λ number. number < 16 ^ count) }
{
    if text.len() != count {
        return None;
    }
    hexadecimal_in(text)
}
