//! The words of a scan code.

ghost use Rattle.std.specs.Prelude.{◌≡◌, ◌-◌, ◌<◌, ◌≤◌, is_some, IfSome};
ghost use Rattle.pc_tables.specs.Words.{word, letter_in, letter_on, letter_words, function_words};
ghost use Rattle.pc_tables.specs.Words.{table_words, words_at, has_words};

use super::key::{key_scanned, name_of};
use super::word_table::WORDS;

/// The words that a key enters: without a modifier, with shift, with Ctrl and with Alt. None if it enters none.
#[derive(Clone, Copy, Debug, PartialEq, Eq)]
pub struct WordRow {
    pub base: Option<u16>,
    pub shift: Option<u16>,
    pub ctrl: Option<u16>,
    pub alt: Option<u16>,
}

/// A word: the scan code or extended code in the high byte, the character in the low byte.
fn word(high: u8, low: u8) -> Option<u16>
    ensures { result ≡ word high low }
{
    Some(256 * u16::from(high) + u16::from(low))
}

/// The letter that a name is. None for every other name.
fn letter_in(name: &str) -> Option<u8>
    ensures letter { result ≡ letter_in name.now }
    ensures low { IfSome result (λ letter. 97 ≤ letter) }
    ensures high { IfSome result (λ letter. letter ≤ 122) }
{
    match name.as_bytes() {
        [letter @ b'a'..=b'z'] => Some(*letter),
        _ => None,
    }
}

/// The lower-case letter on the key with this scan code; None exactly if no key whose name is one letter has it.
#[tactic(auto, unfolding(crate::specs::Words::letter_on))]
pub fn letter_on(scan: u8) -> Option<u8>
    ensures letter { result ≡ letter_on scan }
    ensures low { IfSome result (λ letter. 97 ≤ letter) }
    ensures high { IfSome result (λ letter. letter ≤ 122) }
{
    letter_in(name_of(key_scanned(scan)?))
}

/// The words of a letter's key, by its scan code and its lower-case letter.
fn letter_words(scan: u8, letter: u8) -> WordRow
    requires low { 97 ≤ letter }
    requires high { letter ≤ 122 }
    ensures { result ≡ letter_words scan letter }
{
    WordRow {
        base: word(scan, letter),
        shift: word(scan, letter - b'a' + b'A'),
        ctrl: word(scan, letter - b'a' + 1),
        alt: word(scan, 0),
    }
}

/// The words of a function key, counted from 0.
fn function_words(k: u8) -> WordRow
    requires { k < 10 }
    ensures { result ≡ function_words k }
{
    WordRow {
        base: word(0x3b + k, 0),
        shift: word(0x54 + k, 0),
        ctrl: word(0x5e + k, 0),
        alt: word(0x68 + k, 0),
    }
}

/// The words of a key that is in the table.
#[tactic(auto, unfolding(crate::specs::Words::words))]
fn table_words(scan: u8) -> Option<WordRow>
    ensures { result ≡ table_words scan }
{
    WORDS
        .iter()
        .find(|row| row.scan == scan)
        .map(|row| row.words)
}

/// The words of the key with this scan code. None exactly for a byte that is no scan code of a key, and for the
/// modifiers Ctrl (1D), left and right shift (2A, 36), Alt (38) and for SysReq (54).
pub fn word_row(scan: u8) -> Option<WordRow>
    ensures row { result ≡ words_at scan }
    ensures known { is_some result ≡ has_words scan }
{
    if let Some(letter) = letter_on(scan) {
        return Some(letter_words(scan, letter));
    }
    if scan >= 0x3b && scan <= 0x44 {
        return Some(function_words(scan - 0x3b));
    }
    table_words(scan)
}
