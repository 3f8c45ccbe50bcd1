//! The keys by number, by name and by code.

ghost use Rattle.std.specs.Prelude.{◌≡◌, ◌<◌, Some};
ghost use Rattle.pc_tables.specs.Keys.{key_numbered, name_at, code_at, scan_at};
ghost use Rattle.pc_tables.specs.Keys.{key_with_name, key_with_code, key_with_scan};

use super::key_table::key_row;
use std::marker::Model;

/// One of the 84 keys of the PC/AT keyboard. A clause sees it as its number, which is below 84.
#[derive(Clone, Copy, Debug, PartialEq, Eq)]
pub struct Key {
    number: u8,
}

impl Model for Key {
    ghost use Rattle.std.specs.Prelude.{ℕ, ◌<◌};

    ghost Value = { ℕ };

    ghost view = { λ key. key.number };

    ghost invariant = { λ key. key.number < 84 };

    ghost inverse = { λ number. record { number = number } };
}

impl Key {
    /// The key with this number; None exactly from 84 on.
    pub fn numbered(n: u8) -> Option<Key>
        ensures key { result ≡ key_numbered n }
    {
        if n < 84 {
            Some(Key { number: n })
        } else {
            None
        }
    }

    /// The key's number, from 0.
    pub fn number(&self) -> u8
        ensures number { result ≡ self.now }
        ensures range { result < 84 }
    {
        self.number
    }
}

/// The key with this name; None exactly if no key has it. Names are lower case and are compared exactly.
pub fn key_named(name: &str) -> Option<Key>
    ensures key { result ≡ key_with_name name.now }
{
    key_spelled(name.as_bytes())
}

/// The key whose name has these bytes; None exactly if no key's has, so too if they are no text.
pub fn key_spelled(name: &[u8]) -> Option<Key>
    ensures key { result ≡ key_with_name name.now }
{
    for number in 0..84 {
        if key_row(number).name.as_bytes() == name {
            return Some(Key { number });
        }
    }
    None
}

/// The key with this scan code after translation; None exactly if no key has it.
pub(crate) fn key_scanned(scan: u8) -> Option<Key>
    ensures { result ≡ key_with_scan scan }
{
    for number in 0..84 {
        if key_row(number).scan == scan {
            return Some(Key { number });
        }
    }
    None
}

/// The key's name. No two keys share one.
pub fn name_of(k: Key) -> &'static str
    ensures name { result.now ≡ name_at k }
    ensures own { key_with_name result.now ≡ Some k }
{
    key_row(k.number).name
}

/// The code that the keyboard sends for the key (scan set 2 of the 84-key keyboard). No two keys share one.
pub fn code_of(k: Key) -> u8
    ensures code { result ≡ code_at k }
    ensures own { key_with_code result ≡ Some k }
    ensures some { 0 < result }
    ensures range { result < 0x85 }
{
    key_row(k.number).code
}

/// The key's scan code after the controller's translation, of a make. No two keys share one.
pub fn scan_of(k: Key) -> u8
    ensures scan { result ≡ scan_at k }
    ensures own { key_with_scan result ≡ Some k }
    ensures some { 0 < result }
    ensures range { result < 0x55 }
{
    key_row(k.number).scan
}
