//! An entry of a layout: a place, the key that is there, and what it sends.

ghost use Rattle.std.specs.Prelude.{◌≡◌, ◌<◌, ◌&&◌, true, false, IfSome, IfOk};
ghost use Rattle.toml.specs.View.{table_view, view};
ghost use Rattle.layout_reader.specs.Entries.{sends_in, fn_sends_in, place_in, is_fn, is_place_taken, is_key_named};
ghost use Rattle.layout_reader.specs.Entries.{has_fn, lacks_field, has_wrong_kind, says_what_is_sent, entry_in};
ghost use Rattle.layout_reader.specs.Entries.{is_fn_in, fn_judgements, silent_entry, entry_from, IsEntry};
ghost use Rattle.layout_reader.specs.Faults.{first_of, unless};

use crate::cause::Cause;
use crate::fields::{
    Format, Level, byte_at, has_field, has_other_field, is_not_text, is_not_truth, is_not_whole,
    is_set, key_at,
};
use board_terms::Place;
use pc_tables::Key;
use toml::{Table, Value};

/// An entry of a layout: the place of a key, the key, and what it sends. The Fn key, which selects the second layer,
/// sends nothing.
#[derive(Clone, Copy, Debug, PartialEq, Eq)]
pub struct Entry {
    /// Where the key is.
    pub place: Place,
    /// The key that is there, by which a history names it.
    pub key: Key,
    /// The key whose code is sent; None exactly at the Fn key.
    pub sends: Option<Key>,
    /// The key whose code is sent under Fn; None exactly at the Fn key.
    pub fn_sends: Option<Key>,
    /// Whether only the make is sent, and no break.
    pub make_only: bool,
}

/// The key whose code the entry sends; if it names none, its own.
#[tactic(auto, unfolding(crate::specs::Entries::sends_in))]
fn sends_in(fields: &Table) -> Option<Key>
    ensures key { result ≡ sends_in (table_view fields.now) }
    ensures range { IfSome result (λ key. key < 84) }
{
    if has_field(fields, "sends") {
        key_at(fields, "sends")
    } else {
        key_at(fields, "key")
    }
}

/// The key whose code the entry sends under Fn; if it names none, the one that it sends without.
#[tactic(auto, unfolding(crate::specs::Entries::fn_sends_in))]
fn fn_sends_in(fields: &Table) -> Option<Key>
    ensures key { result ≡ fn_sends_in (table_view fields.now) }
    ensures range { IfSome result (λ key. key < 84) }
{
    if has_field(fields, "fn_sends") {
        key_at(fields, "fn_sends")
    } else {
        sends_in(fields)
    }
}

/// The place in the entry's column and row.
#[tactic(auto, unfolding(crate::specs::Entries::place_in))]
fn place_in(fields: &Table) -> Option<Place>
    ensures place { result ≡ place_in (table_view fields.now) }
    ensures range { IfSome result (λ place. place < 96) }
{
    match (byte_at(fields, "column"), byte_at(fields, "row")) {
        (Some(column), Some(row)) => Place::at(column, row),
        _ => None,
    }
}

/// Whether an earlier entry is at the place.
#[tactic(auto, unfolding(crate::specs::Entries::is_place_taken))]
fn is_place_taken(earlier: &[Entry], place: Place) -> bool
    ensures { result ≡ is_place_taken earlier.now place }
{
    earlier.iter().any(|entry| entry.place == place)
}

/// Whether an earlier entry names the key.
#[tactic(auto, unfolding(crate::specs::Entries::is_key_named))]
fn is_key_named(earlier: &[Entry], key: Key) -> bool
    ensures { result ≡ is_key_named earlier.now key }
{
    earlier.iter().any(|entry| entry.key == key)
}

/// Whether an earlier entry is the Fn key's.
#[tactic(auto, unfolding(crate::specs::Entries::has_fn))]
fn has_fn(earlier: &[Entry]) -> bool
    ensures { result ≡ has_fn earlier.now }
{
    earlier.iter().any(|entry| entry.sends.is_none())
}

/// Whether the entry names no key, no column or no row.
fn lacks_field(fields: &Table) -> bool
    ensures { result ≡ lacks_field (table_view fields.now) }
{
    !has_field(fields, "key") || !has_field(fields, "column") || !has_field(fields, "row")
}

/// Whether a field of the entry is of the wrong kind.
fn has_wrong_kind(fields: &Table) -> bool
    ensures { result ≡ has_wrong_kind (table_view fields.now) }
{
    is_not_text(fields, "key")
        || is_not_whole(fields, "column")
        || is_not_whole(fields, "row")
        || is_not_text(fields, "sends")
        || is_not_text(fields, "fn_sends")
        || is_not_truth(fields, "fn")
        || is_not_truth(fields, "make_only")
}

/// Whether the entry says what is sent, or how.
fn says_what_is_sent(fields: &Table) -> bool
    ensures { result ≡ says_what_is_sent (table_view fields.now) }
{
    has_field(fields, "sends") || has_field(fields, "fn_sends") || has_field(fields, "make_only")
}

/// The entry that the fields give after the earlier entries, or the first fault in the order of judgement.
#[tactic(auto, unfolding(crate::specs::Entries::entry_in))]
fn entry_in(format: Format, earlier: &[Entry], fields: &Table) -> Result<Entry, Cause>
    ensures entry { result ≡ entry_in format earlier.now (table_view fields.now) }
    ensures sound { IfOk result IsEntry }
    ensures own_place { IfOk result (λ entry. is_place_taken earlier.now entry.place ≡ false) }
    ensures own_key { IfOk result (λ entry. is_key_named earlier.now entry.key ≡ false) }
    ensures one_fn { IfOk result (λ entry. (is_fn entry && has_fn earlier.now) ≡ false) }
{
    if has_other_field(fields, Level::Entry(format)) {
        return Err(Cause::UnknownField);
    }
    if lacks_field(fields) {
        return Err(Cause::MissingField);
    }
    if has_wrong_kind(fields) {
        return Err(Cause::WrongKind);
    }
    let Some(key) = key_at(fields, "key") else {
        return Err(Cause::UnknownKey);
    };
    let Some(sends) = sends_in(fields) else {
        return Err(Cause::UnknownKey);
    };
    let Some(fn_sends) = fn_sends_in(fields) else {
        return Err(Cause::UnknownKey);
    };
    let Some(place) = place_in(fields) else {
        return Err(Cause::PlaceOutOfRange);
    };
    if is_place_taken(earlier, place) {
        return Err(Cause::PlaceTaken);
    }
    if is_key_named(earlier, key) {
        return Err(Cause::KeyNamedBefore);
    }
    if is_set(fields, "fn") {
        return fn_entry(earlier, fields, place, key);
    }
    Ok(Entry {
        place,
        key,
        sends: Some(sends),
        fn_sends: Some(fn_sends),
        make_only: is_set(fields, "make_only"),
    })
}

/// The entry of the Fn key at a place, or the first fault of the last two: there is one Fn key, and it sends nothing.
fn fn_entry(earlier: &[Entry], fields: &Table, place: Place, key: Key) -> Result<Entry, Cause>
    requires { is_fn_in (table_view fields.now) ≡ true }
    ensures entry { result ≡ unless (first_of (fn_judgements earlier.now (table_view fields.now))) (silent_entry place key) }
    ensures own { IfOk result (λ entry. entry ≡ silent_entry place key) }
    ensures one_fn { IfOk result (λ entry. has_fn earlier.now ≡ false) }
{
    if has_fn(earlier) {
        return Err(Cause::FnNamedBefore);
    }
    if says_what_is_sent(fields) {
        return Err(Cause::FnSends);
    }
    Ok(Entry {
        place,
        key,
        sends: None,
        fn_sends: None,
        make_only: false,
    })
}

/// The entry that an element of the document's list gives; one that isn't a table is of the wrong kind.
pub(crate) fn entry_from(format: Format, earlier: &[Entry], element: &Value) -> Result<Entry, Cause>
    ensures entry { result ≡ entry_from format earlier.now (view element.now) }
    ensures sound { IfOk result IsEntry }
    ensures own_place { IfOk result (λ entry. is_place_taken earlier.now entry.place ≡ false) }
    ensures own_key { IfOk result (λ entry. is_key_named earlier.now entry.key ≡ false) }
    ensures one_fn { IfOk result (λ entry. (is_fn entry && has_fn earlier.now) ≡ false) }
{
    match element.as_table() {
        Some(fields) => entry_in(format, earlier, fields),
        None => Err(Cause::WrongKind),
    }
}
