//! The keys with which the bytes of a text are typed.

ghost use Rattle.std.specs.Prelude.{◌≡◌, find, option_and_then};
ghost use Rattle.std.specs.Option.{option_map};
ghost use Rattle.law_typed_log.specs.Typing.{base, shifted, character, is_low, word_of, enters, is_shift, is_shift_entry};
ghost use Rattle.law_typed_log.specs.Typing.{shift_entry, key_of, stroke_of};
ghost use Rattle.key_planner.specs.Kept.{meant};

use crate::stroke::Stroke;
use layout_reader::{Entry, Layout};
use pc_tables::{Key, name_of, scan_of, word_row};

/// Whether a word has this character in its low byte; false if there is no word.
fn is_low(character: u8, word: Option<u16>) -> bool
    ensures { result ≡ is_low character word }
{
    match word {
        Some(word) => word % 256 == u16::from(character),
        None => false,
    }
}

/// The word that an entry's key enters without shift; None if it enters none, as the Fn key.
fn base_word(entry: &Entry) -> Option<u16>
    ensures { result ≡ option_and_then (word_of base) entry.now.sends }
{
    word_row(scan_of(entry.sends?))?.base
}

/// The word that it enters under shift; None if it enters none, as the Fn key.
fn shifted_word(entry: &Entry) -> Option<u16>
    ensures { result ≡ option_and_then (word_of shifted) entry.now.sends }
{
    word_row(scan_of(entry.sends?))?.shift
}

/// Whether an entry's key enters the character without shift.
#[tactic(auto, unfolding(law_typed_log::specs::Typing::enters))]
fn enters(entry: &Entry, character: u8) -> bool
    ensures { result ≡ enters base character entry.now }
{
    is_low(character, base_word(entry))
}

/// Whether it enters the character under shift.
#[tactic(auto, unfolding(law_typed_log::specs::Typing::enters))]
fn enters_shifted(entry: &Entry, character: u8) -> bool
    ensures { result ≡ enters shifted character entry.now }
{
    is_low(character, shifted_word(entry))
}

/// Whether a key is one of the two shift keys.
fn is_shift(key: Key) -> bool
    ensures { result ≡ is_shift key }
{
    name_of(key) == "lshift" || name_of(key) == "rshift"
}

/// Whether an entry's key is pressed for shift: it sends a shift key's code, and a break.
#[tactic(auto, unfolding(law_typed_log::specs::Typing::is_shift_entry))]
fn is_shift_entry(entry: &Entry) -> bool
    ensures { result ≡ is_shift_entry entry.now }
{
    match entry.sends {
        Some(key) => is_shift(key) && !entry.make_only,
        None => false,
    }
}

/// The first entry that enters the character without shift.
fn base_entry(character: u8, entries: &[Entry]) -> Option<Entry>
    ensures { result ≡ find (enters base character) entries.now }
{
    match entries.iter().find(|entry| enters(entry, character)) {
        Some(entry) => Some(*entry),
        None => None,
    }
}

/// The first entry that enters it under shift.
fn shifted_entry(character: u8, entries: &[Entry]) -> Option<Entry>
    ensures { result ≡ find (enters shifted character) entries.now }
{
    match entries
        .iter()
        .find(|entry| enters_shifted(entry, character))
    {
        Some(entry) => Some(*entry),
        None => None,
    }
}

/// The first entry whose key is pressed for shift.
fn shift_entry(entries: &[Entry]) -> Option<Entry>
    ensures { result ≡ shift_entry entries.now }
{
    match entries.iter().find(|entry| is_shift_entry(entry)) {
        Some(entry) => Some(*entry),
        None => None,
    }
}

/// How a character other than 00 is typed: with the first entry that enters it without shift; if there is none, with
/// the first that enters it under shift, under the first shift entry. None if neither is there.
fn key_of(character: u8, entries: &[Entry]) -> Option<Stroke>
    ensures { option_map meant result ≡ key_of character entries.now }
{
    if let Some(key) = base_entry(character, entries) {
        return Some(Stroke::Plain(key));
    }
    let shift = shift_entry(entries)?;
    let key = shifted_entry(character, entries)?;
    Some(Stroke::Shifted(shift, key))
}

/// How a byte of a text is typed; None if it has no key, as 00. A line feed is an Enter, as a carriage return is.
#[tactic(auto, unfolding(law_typed_log::specs::Typing::stroke_of))]
pub(crate) fn stroke_of(layout: &Layout, byte: u8) -> Option<Stroke>
    ensures { option_map meant result ≡ stroke_of layout.now (character byte) }
{
    let character = if byte == b'\n' { b'\r' } else { byte };
    if character == 0 {
        return None;
    }
    key_of(character, layout.entries())
}
