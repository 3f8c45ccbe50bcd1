//! What the operands of an instruction say.

ghost use Rattle.std.specs.Prelude.{◌≡◌, ◌<◌, ◌≤◌, ◌∷◌, [], IfSome, position, map};
ghost use Rattle.std.specs.List.{list_any};
ghost use Rattle.std.specs.Option.{option_map, ForSome};
ghost use Rattle.std.specs.Str.{bytes_eq};
ghost use Rattle.mcs48_asm.specs.Characters.{is_blank};
ghost use Rattle.mcs48_asm.specs.Rows.{instructions, is_instruction, reserved, is_reserved, fixed, given, joined, both};
ghost use Rattle.mcs48_asm.specs.Rows.{numbered, register, pointer, expander, immediate, read, read_all};
ghost use Rattle.mcs48_asm.specs.Tokens.{tokens_of};
ghost use Rattle.mcs48_asm.specs.Capped.{value_capped, reading_capped};
ghost use Rattle.mcs48_asm.specs.Kept.{value_seen, reading_seen, spelled, operand_seen, operands_seen, form_seen};

use crate::argument::{Argument, Reading, Role, Value};
use crate::characters::is_blank;
use crate::rows::{Operand, RESERVED, ROWS, Row, Shape};
use crate::values::{value_from, value_of};
use crate::words::{next_token, only_token};
use text_lines::split_once;

/// The most characters of a word that no line defines.
const LONGEST: usize = 5;

/// The place of the first blank in a word of the table.
fn place_of_blank(word: &[u8]) -> Option<usize>
    ensures { result ≡ position is_blank word.now }
{
    word.iter().position(|character| is_blank(*character))
}

/// A word of the table without the blanks that fill it up.
fn spelled(word: &[u8]) -> &[u8]
    ensures { result.now ≡ spelled word.now }
{
    match place_of_blank(word) {
        Some(place) => &word[..place],
        None => word,
    }
}

/// Whether a text is this word of the table, compared to the end.
#[inline(never)]
fn is_whole(word: &[u8], text: &[u8]) -> bool
    ensures { result ≡ bytes_eq (spelled word.now) text.now }
{
    spelled(word) == text
}

/// Whether a text is this word of the table. Most words differ in their first character, and are looked at no further.
#[inline(always)]
pub(crate) fn is_spelled(word: &[u8], text: &[u8]) -> bool
    ensures { result ≡ bytes_eq (spelled word.now) text.now }
{
    if let [first, ..] = word
        && let [other, ..] = text
        && first != other
    {
        return false;
    }
    is_whole(word, text)
}

/// The instructions.
#[tactic(auto, unfolding(crate::specs::Rows::instructions))]
pub(crate) fn instructions() -> &'static [Row]
    ensures { map form_seen result.now ≡ instructions }
{
    &ROWS
}

/// Whether one of the instructions begins with a word.
fn is_first_word(rows: &[Row], word: &[u8]) -> bool
    ensures { result ≡ list_any (λ row. bytes_eq (spelled row.0) word.now) rows.now }
{
    rows.iter().any(|row| is_spelled(&row.0, word))
}

/// Whether a word begins an instruction.
pub(crate) fn is_instruction(word: &[u8]) -> bool
    ensures { result ≡ is_instruction word.now }
{
    is_first_word(instructions(), word)
}

/// The words that no line defines, beside the first words of the instructions.
#[tactic(auto, unfolding(crate::specs::Rows::reserved))]
fn reserved() -> &'static [[u8; 5]]
    ensures { map spelled result.now ≡ reserved }
{
    &RESERVED
}

/// Whether a word is one of these words of the table.
fn is_among(words: &[[u8; 5]], word: &[u8]) -> bool
    ensures { result ≡ list_any (λ held. bytes_eq (spelled held) word.now) words.now }
{
    words.iter().any(|held| is_spelled(held, word))
}

/// Whether a word is one that no line defines, beside the first words of the instructions.
fn is_listed(word: &[u8]) -> bool
    ensures { result ≡ list_any (λ held. bytes_eq held word.now) reserved }
{
    is_among(reserved(), word)
}

/// Whether no line defines a name. Each such word is short, and most names are looked at no further.
#[tactic(auto, unfolding(crate::specs::Rows::is_reserved), using(crate::proofs::Reserved::reserved_long))]
pub(crate) fn is_reserved(name: &[u8]) -> bool
    ensures { result ≡ is_reserved name.now }
{
    name.len() <= LONGEST && (is_listed(name) || is_instruction(name))
}

/// The number of a digit from one to another.
fn numbered(first: u8, last: u8, digit: u8) -> Option<u8>
    requires { 48 ≤ first }
    ensures { result ≡ numbered first last digit }
{
    if first <= digit && digit <= last {
        Some(digit - b'0')
    } else {
        None
    }
}

/// The number of a register, R0 to R7.
fn register(token: &[u8]) -> Option<u8>
    ensures number { result ≡ register token.now }
    ensures small { IfSome result (λ number. number < 8) }
{
    match token {
        [b'R', digit] => numbered(b'0', b'7', *digit),
        _ => None,
    }
}

/// The number of a pointer register, @R0 or @R1.
fn pointer(token: &[u8]) -> Option<u8>
    ensures number { result ≡ pointer token.now }
    ensures small { IfSome result (λ number. number < 8) }
{
    match token {
        [b'@', b'R', digit] => numbered(b'0', b'1', *digit),
        _ => None,
    }
}

/// The number of a port of the expander, P4 to P7.
fn expander(token: &[u8]) -> Option<u8>
    ensures number { result ≡ expander token.now }
    ensures small { IfSome result (λ number. number < 8) }
{
    match token {
        [b'P', digit] => numbered(b'4', b'7', *digit),
        _ => None,
    }
}

/// # and a value.
fn immediate(text: &[u8]) -> Option<Value<'_>>
    ensures { option_map value_seen result ≡ option_map value_capped (immediate (tokens_of text.now)) }
{
    let (first, rest) = next_token(text)?;
    match first {
        [b'#', word @ ..] => value_from(word, rest),
        _ => None,
    }
}

/// An operand that adds to the first byte.
fn fixed<'a>(offset: u8) -> Reading<'a>
    ensures reading { reading_seen result ≡ fixed offset }
    ensures offset { result.offset ≡ offset }
{
    Reading {
        offset,
        argument: None,
    }
}

/// An operand that is a value.
fn given(role: Role, value: Value<'_>) -> Reading<'_>
    ensures reading { reading_seen result ≡ given role (value_seen value.entry) }
    ensures offset { result.offset ≡ 0 }
{
    Reading {
        offset: 0,
        argument: Some(Argument { role, value }),
    }
}

/// An operand that is a value, if there is one.
fn given_by(role: Role, value: Option<Value<'_>>) -> Option<Reading<'_>>
    ensures reading { option_map reading_seen result ≡ option_map (given role) (option_map value_seen value.entry) }
    ensures offset { IfSome result (λ reading. reading.offset ≡ 0) }
{
    Some(given(role, value?))
}

/// What a text says as an operand, if it is one.
fn read(operand: Operand, text: &[u8]) -> Option<Reading<'_>>
    ensures reading { option_map reading_seen result ≡ option_map reading_capped
        (read (operand_seen operand) (tokens_of text.now)) }
    ensures small { IfSome result (λ reading. reading.offset < 8) }
{
    match operand {
        Operand::Is(word) => is_spelled(&word, only_token(text)?).then_some(fixed(0)),
        Operand::Register => Some(fixed(register(only_token(text)?)?)),
        Operand::Pointer => Some(fixed(pointer(only_token(text)?)?)),
        Operand::Expander => Some(fixed(expander(only_token(text)?)?)),
        Operand::Immediate => given_by(Role::Byte, immediate(text)),
        Operand::Address => given_by(Role::Address, value_of(text)),
        Operand::Target => given_by(Role::Target, value_of(text)),
    }
}

/// What a text says where no operand may be.
fn read_none(text: &[u8]) -> Option<Reading<'_>>
    ensures { option_map reading_seen result ≡ option_map reading_capped (read_all [] (tokens_of text.now)) }
{
    match next_token(text) {
        None => Some(fixed(0)),
        Some(_) => None,
    }
}

/// What a text says as the only operand.
fn read_one(operand: Operand, text: &[u8]) -> Option<Reading<'_>>
    ensures { option_map reading_seen result ≡ option_map reading_capped
        (read_all (operand_seen operand ∷ []) (tokens_of text.now)) }
{
    match split_once(b',', text) {
        None => read(operand, text),
        Some(_) => None,
    }
}

/// What two operands say together.
fn joined<'a>(first: Reading<'a>, second: Reading<'a>) -> Reading<'a>
    requires first_small { first.offset < 8 }
    requires second_small { second.offset < 8 }
    ensures { reading_seen result ≡ joined (reading_seen first.entry) (reading_seen second.entry) }
{
    Reading {
        offset: first.offset + second.offset,
        argument: first.argument.or(second.argument),
    }
}

/// What two operands say together, if both are there.
fn both<'a>(first: Option<Reading<'a>>, second: Option<Reading<'a>>) -> Option<Reading<'a>>
    requires first_small { ForSome first (λ reading. reading.offset < 8) }
    requires second_small { ForSome second (λ reading. reading.offset < 8) }
    ensures { option_map reading_seen result ≡ both (option_map reading_seen first.entry)
        (option_map reading_seen second.entry) }
{
    Some(joined(first?, second?))
}

/// What two texts say as two operands.
fn read_both<'a>(
    first: Operand,
    second: Operand,
    text: &'a [u8],
    other: &'a [u8],
) -> Option<Reading<'a>>
    ensures { option_map reading_seen result ≡ option_map reading_capped
        (both (read (operand_seen first) (tokens_of text.now)) (read (operand_seen second) (tokens_of other.now))) }
{
    both(read(first, text), read(second, other))
}

/// What a text says as two operands.
fn read_two(first: Operand, second: Operand, text: &[u8]) -> Option<Reading<'_>>
    ensures { option_map reading_seen result ≡ option_map reading_capped
        (read_all (operand_seen first ∷ operand_seen second ∷ []) (tokens_of text.now)) }
{
    let Some((front, back)) = split_once(b',', text) else {
        return None;
    };
    match split_once(b',', back) {
        None => read_both(first, second, front, back),
        Some(_) => None,
    }
}

/// What a text says as the operands of an instruction, if it is that.
pub(crate) fn read_all(shape: Shape, text: &[u8]) -> Option<Reading<'_>>
    ensures { option_map reading_seen result ≡ option_map reading_capped
        (read_all (operands_seen shape) (tokens_of text.now)) }
{
    match shape {
        Shape::Without => read_none(text),
        Shape::One(operand) => read_one(operand, text),
        Shape::Two(first, second) => read_two(first, second, text),
    }
}
