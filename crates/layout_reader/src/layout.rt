//! A layout as the layers above see it.

ghost use Rattle.std.specs.Prelude.{◌≡◌, ◌≤◌, ◌<◌, nat_eq, length, is_none, All};
ghost use Rattle.std.specs.List.{IsDistinct, filter};
ghost use Rattle.layout_reader.specs.Entries.{IsEntry, is_fn};
ghost use Rattle.layout_reader.specs.Layouts.{KeyLayout, places_of, keys_of, code_at, place_of, entry_at};
ghost use Rattle.layout_reader.specs.Layouts.{entry_of_key, AreEntries, fn_code_at, fn_place, is_make_only, IsSilentAtFn, with_debounce};

use crate::entry::Entry;
use board_terms::Place;
use pc_tables::{Key, code_of};
use std::marker::Model;

/// A layout: a rate, whether keys are debounced, and entries in the order of the document, in which no place and no key occurs twice, and at most
/// one is the Fn key's.
#[derive(Debug, Drop)]
pub struct Layout {
    rate: u8,
    debounce: bool,
    entries: Vec<Entry>,
}

impl Model for Layout {
    ghost use Rattle.layout_reader.specs.Layouts.{KeyLayout, IsKeyLayout};

    ghost Value = { KeyLayout };

    ghost view = { λ layout. record { rate = layout.rate; debounce = layout.debounce; entries = layout.entries.items } };

    ghost invariant = { λ layout. IsKeyLayout (record { rate = layout.rate; debounce = layout.debounce; entries = layout.entries.items }) };
}

impl Layout {
    /// The layout of this rate byte and these entries, with a debounce or without.
    pub(crate) fn new(rate: u8, debounce: bool, entries: Vec<Entry>) -> Layout
        requires rate { rate < 128 }
        requires entries { AreEntries entries.items }
        ensures { result ≡ record { rate = rate; debounce = debounce; entries = entries.items } }
    {
        Layout {
            rate,
            debounce,
            entries,
        }
    }

    /// The keyboard's rate byte at power-on, below 128: bits 5 and 6 are the delay, bits 0 to 4 the period.
    pub fn rate(&self) -> u8
        ensures rate { result ≡ self.now.rate }
        ensures range { result < 128 }
    {
        self.rate
    }

    /// Whether keys are debounced: a key changes once two readings in a row show it so.
    pub fn debounces(&self) -> bool
        ensures { result ≡ self.now.debounce }
    {
        self.debounce
    }

    /// The same layout with a debounce, or without.
    pub fn with_debounce(self, debounce: bool) -> Layout
        ensures layout { result ≡ with_debounce debounce self }
    {
        Layout { debounce, ..self }
    }

    /// The entries in the order of the document. There are 84 at most, since no key occurs twice.
    #[tactic(auto, using(crate::proofs::Laws::entries_limit))]
    pub fn entries(&self) -> &[Entry]
        ensures entries { result.now ≡ self.now.entries }
        ensures each { All IsEntry result.now }
        ensures own_places { IsDistinct nat_eq (places_of result.now) }
        ensures own_keys { IsDistinct nat_eq (keys_of result.now) }
        ensures one_fn { length (filter is_fn result.now) ≤ 1 }
        ensures limit { length result.now ≤ 84 }
    {
        self.entries.as_slice()
    }

    /// The code that the keyboard sends for this place (scan set 2), which is that of the key that its entry sends;
    /// None exactly if no entry has the place or the Fn key is there.
    #[tactic(auto, unfolding(crate::specs::Layouts::code_at))]
    pub fn code_at(&self, place: Place) -> Option<u8>
        ensures code { result ≡ code_at place self.now }
    {
        let key = self.entry_at(place)?.sends?;
        Some(code_of(key))
    }

    /// The code that it sends for this place under Fn, which is that of the key that its entry sends then; None exactly
    /// if it sends none without Fn either: if no entry has the place or the Fn key is there.
    #[tactic(auto, unfolding(crate::specs::Layouts::fn_code_at))]
    pub fn fn_code_at(&self, place: Place) -> Option<u8>
        ensures code { result ≡ fn_code_at place self.now }
        ensures silent { is_none result ≡ is_none (code_at place self.now) }
    {
        let key = self.entry_at(place)?.fn_sends?;
        Some(code_of(key))
    }

    /// Whether the key at this place sends no break; false if no entry has the place.
    #[tactic(auto, unfolding(crate::specs::Layouts::is_make_only))]
    pub fn make_only(&self, place: Place) -> bool
        ensures make_only { result ≡ is_make_only place self.now }
    {
        match self.entry_at(place) {
            Some(entry) => entry.make_only,
            None => false,
        }
    }

    /// The place of the Fn key; None exactly if there is none.
    pub fn fn_place(&self) -> Option<Place>
        ensures place { result ≡ fn_place self.now }
        ensures silent { IsSilentAtFn self.now }
    {
        match self.entries.iter().find(|entry| entry.sends.is_none()) {
            Some(entry) => Some(entry.place),
            None => None,
        }
    }

    /// The entry at this place; None exactly if none has it.
    fn entry_at(&self, place: Place) -> Option<Entry>
        ensures entry { result ≡ entry_at place self.now.entries }
        ensures silent { IsSilentAtFn self.now }
    {
        match self.entries.iter().find(|entry| entry.place == place) {
            Some(entry) => Some(*entry),
            None => None,
        }
    }

    /// The place of this key; None exactly if no entry has it.
    pub fn place_of(&self, key: Key) -> Option<Place>
        ensures place { result ≡ place_of key self.now }
    {
        match self.entries.iter().find(|entry| entry.key == key) {
            Some(entry) => Some(entry.place),
            None => None,
        }
    }
}
