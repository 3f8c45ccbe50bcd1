//! Numbers and values.

ghost use Rattle.std.specs.Prelude.{◌≡◌, ◌≤◌, ◌∷◌, nat_lt};
ghost use Rattle.std.specs.List.{list_all};
ghost use Rattle.std.specs.Option.{option_map};
ghost use Rattle.mcs48_asm.specs.Tokens.{tokens_of, alone};
ghost use Rattle.mcs48_asm.specs.Values.{digit_value, are_digits, written, number_in, number_of, number_or_name};
ghost use Rattle.mcs48_asm.specs.Values.{low_of, value_of};
ghost use Rattle.mcs48_asm.specs.Capped.{capped, value_capped};
ghost use Rattle.mcs48_asm.specs.Kept.{kept_part, value_seen};

use crate::argument::Value;
use crate::words::{is_name, next_token, only_token};

/// The greatest number of a source. The next one stands for all past it.
pub(crate) const GREATEST: u32 = 65_535;

/// The value of a digit, 0 to 9 or A to F; any other character is 16, which is no digit of a base.
fn digit_value(character: u8) -> u32
    ensures value { result ≡ digit_value character }
    ensures small { result ≤ 16 }
{
    match character {
        b'0'..=b'9' => u32::from(character - b'0'),
        b'A'..=b'F' => u32::from(character - b'A') + 10,
        _ => 16,
    }
}

/// Whether each character of a text is a digit of a base.
fn are_all_below(base: u32, digits: &[u8]) -> bool
    ensures { result ≡ list_all (λ digit. nat_lt (digit_value digit) base) digits.now }
{
    digits.iter().all(|digit| digit_value(*digit) < base)
}

/// Whether a text is made of digits of a base, at least one.
fn are_digits(base: u32, digits: &[u8]) -> bool
    ensures { result ≡ are_digits base digits.now }
{
    !digits.is_empty() && are_all_below(base, digits)
}

/// The number that digits of a base write, or 65,536 if it is more.
fn written(base: u32, digits: &[u8]) -> u32
    requires some { 1 ≤ base }
    requires small { base ≤ 16 }
    ensures { result ≡ capped (written base digits.now) }
{
    let mut number = 0;
    for digit in digits {
        number = (number * base + digit_value(*digit)).min(GREATEST + 1);
    }
    number
}

/// The number that a text of digits gives.
fn number_in(base: u32, digits: &[u8]) -> Option<u32>
    requires some { 1 ≤ base }
    requires small { base ≤ 16 }
    ensures { result ≡ option_map capped (number_in base digits.now) }
{
    are_digits(base, digits).then(|| written(base, digits))
}

/// The number that a word writes, or 65,536 if it is more.
pub(crate) fn number_of(word: &[u8]) -> Option<u32>
    ensures { result ≡ option_map capped (number_of word.now) }
{
    match word {
        [b'0'..=b'9', .., b'H'] => number_in(16, &word[..word.len() - 1]),
        [.., b'H'] => None,
        [front @ .., b'B'] => number_in(2, front),
        _ => number_in(10, word),
    }
}

/// The number that is alone in a text, or 65,536 if it is more.
pub(crate) fn only_number(text: &[u8]) -> Option<u32>
    ensures { result ≡ option_map capped (alone number_of (tokens_of text.now)) }
{
    number_of(only_token(text)?)
}

/// The value that a token writes which is alone: a number, or a name.
fn number_or_name(token: &[u8]) -> Option<Value<'_>>
    ensures { option_map value_seen result ≡ option_map value_capped (number_or_name (number_of token.now) token.now) }
{
    match number_of(token) {
        Some(number) => Some(Value::Number(number)),
        None => is_name(token).then_some(Value::Named(token)),
    }
}

/// LOW and a name.
fn low_of<'a>(low: &[u8], name: &'a [u8]) -> Option<Value<'a>>
    ensures { option_map value_seen result ≡ option_map value_capped (low_of low.now name.now) }
{
    (low == b"LOW".as_slice() && is_name(name)).then_some(Value::Low(name))
}

/// The value that a token and the text after it write.
pub(crate) fn value_from<'a>(first: &'a [u8], rest: &'a [u8]) -> Option<Value<'a>>
    ensures { option_map value_seen result ≡ option_map value_capped (value_of (first.now ∷ tokens_of rest.now)) }
{
    let Some((name, afterwards)) = next_token(rest) else {
        return number_or_name(first);
    };
    match next_token(afterwards) {
        None => low_of(first, name),
        Some(_) => None,
    }
}

/// The value that a text writes.
pub(crate) fn value_of(text: &[u8]) -> Option<Value<'_>>
    ensures { option_map value_seen result ≡ option_map value_capped (value_of (tokens_of text.now)) }
{
    let (first, rest) = next_token(text)?;
    value_from(first, rest)
}

/// The value that a part of DB's text writes.
pub(crate) fn part_value(part: &[u8]) -> Value<'_>
    ensures { value_seen result ≡ kept_part part.now }
{
    match value_of(part) {
        Some(value) => value,
        None => Value::Number(0),
    }
}
