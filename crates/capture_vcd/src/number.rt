//! Times and identifier codes, as numbers.

ghost use Rattle.std.specs.Prelude.{◌≡◌, ◌≤◌, ◌<◌, ◌^◌, length, IfSome};
ghost use Rattle.text_lines.specs.Numbers.{decimal_digit, decimal_of, number_after};
ghost use Rattle.capture_vcd.specs.Codes.{code_digit, code_of};

use text_lines::decimal_digit;

/// The number that decimal digits write, at most 14 of them. None if a character is no digit.
fn digits_in(text: &[u8]) -> Option<u64>
    requires { length text.now ≤ 14 }
    ensures number { result ≡ number_after 10 decimal_digit 0 text.now }
    ensures below { IfSome result (λ number. number < 10 ^ length text.now) }
{
    let mut number = 0;
    for character in text {
        number = 10 * number + u64::from(decimal_digit(*character)?);
    }
    Some(number)
}

/// The number of units that 1 to 14 decimal digits write. None for every other text.
pub(crate) fn time(text: &[u8]) -> Option<u64>
    ensures number { result ≡ decimal_of 14 text.now }
    ensures below { IfSome result (λ number. number < 10 ^ 14) }
{
    if text.is_empty() || text.len() > 14 {
        return None;
    }
    digits_in(text)
}

/// The digit, 1 to 94, that a character of an identifier code is. None for any other character.
fn code_digit(character: u8) -> Option<u8>
    ensures digit { result ≡ code_digit character }
    ensures below { IfSome result (λ digit. digit < 95) }
{
    match character {
        b'!'..=b'~' => Some(character - 32),
        _ => None,
    }
}

/// The number that the characters of an identifier code are, at most nine of them. None if one is no such character.
fn code_in(text: &[u8]) -> Option<u64>
    requires { length text.now ≤ 9 }
    ensures number { result ≡ number_after 95 code_digit 0 text.now }
    ensures below { IfSome result (λ number. number < 95 ^ length text.now) }
{
    let mut number = 0;
    for character in text {
        number = 95 * number + u64::from(code_digit(*character)?);
    }
    Some(number)
}

/// An identifier code of one to nine characters, as the number that these are in base 95. None for every other text.
pub(crate) fn code(text: &[u8]) -> Option<u64>
    ensures { result ≡ code_of text.now }
{
    if text.is_empty() || text.len() > 9 {
        return None;
    }
    code_in(text)
}
