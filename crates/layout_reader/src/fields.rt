//! The fields of a table of the document.

ghost use Rattle.std.specs.Prelude.{◌≡◌, ◌<◌, IfSome, option_map};
ghost use Rattle.std.specs.Str.{bytes_eq};
ghost use Rattle.toml.specs.Data.{get_member};
ghost use Rattle.toml.specs.View.{array_view, table_view, view};
ghost use Rattle.layout_reader.specs.Fields.{is_field, has_other_field, has_field, text_at, whole_at, byte_at, key_at};
ghost use Rattle.layout_reader.specs.Fields.{list_at, truth_at, is_set, is_not_text, is_not_whole, is_not_list, is_not_truth};

use pc_tables::{Key, key_named};
use toml::value::Array;
use toml::{Table, Value};

/// The formats of a document. The second knows an Fn key with a second layer, and keys that send no break.
#[derive(Clone, Copy, PartialEq, Eq, Drop)]
pub(crate) enum Format {
    One,
    Two,
}

/// The two levels of the document at which fields are; an entry's fields depend on the format.
#[derive(Clone, Copy, PartialEq, Eq, Drop)]
pub(crate) enum Level {
    Top,
    Entry(Format),
}

/// Whether two names are the same. It is a function of its own, since one that compares many texts is slow to prove.
fn are_same(name: &str, other: &str) -> bool
    ensures { result ≡ bytes_eq name.now other.now }
{
    name == other
}

impl Level {
    /// Whether a table of this level may have a field with this name.
    #[tactic(auto, unfolding(crate::specs::Fields::is_field))]
    pub(crate) fn has(self, name: &str) -> bool
        ensures { result ≡ is_field self name.now }
    {
        match self {
            Level::Top => are_same(name, "debounce")
                || are_same(name, "format")
                || are_same(name, "key")
                || are_same(name, "name")
                || are_same(name, "rate"),
            Level::Entry(Format::One) => are_same(name, "key")
                || are_same(name, "column")
                || are_same(name, "row")
                || are_same(name, "sends"),
            Level::Entry(Format::Two) => are_same(name, "key")
                || are_same(name, "column")
                || are_same(name, "row")
                || are_same(name, "sends")
                || are_same(name, "fn")
                || are_same(name, "fn_sends")
                || are_same(name, "make_only"),
        }
    }
}

/// Whether the table has a field that its level doesn't know.
pub(crate) fn has_other_field(fields: &Table, level: Level) -> bool
    ensures { result ≡ has_other_field level (table_view fields.now) }
{
    for name in fields.keys() {
        if !level.has(name.as_str()) {
            return true;
        }
    }
    false
}

/// What is at a name.
pub(crate) fn value_at<'a>(fields: &'a Table, name: &str) -> Option<&'a Value>
    ensures { option_map (λ value. view value.now) result ≡ get_member name.now (table_view fields.now) }
{
    fields.get(name)
}

/// Whether the table has a field with this name.
#[tactic(auto, unfolding(crate::specs::Fields::has_field))]
pub(crate) fn has_field(fields: &Table, name: &str) -> bool
    ensures { result ≡ has_field name.now (table_view fields.now) }
{
    value_at(fields, name).is_some()
}

/// The text at a name, if there is one.
#[tactic(auto, unfolding(crate::specs::Fields::text_at))]
pub(crate) fn text_at<'a>(fields: &'a Table, name: &str) -> Option<&'a str>
    ensures { option_map (λ text. text.now) result ≡ text_at name.now (table_view fields.now) }
{
    match value_at(fields, name) {
        Some(value) => value.as_str(),
        None => None,
    }
}

/// The whole number at a name, if there is one.
#[tactic(auto, unfolding(crate::specs::Fields::whole_at))]
pub(crate) fn whole_at(fields: &Table, name: &str) -> Option<i64>
    ensures { result ≡ whole_at name.now (table_view fields.now) }
{
    match value_at(fields, name) {
        Some(value) => value.as_integer(),
        None => None,
    }
}

/// The elements of the list at a name, if there is one.
#[tactic(auto, unfolding(crate::specs::Fields::list_at))]
pub(crate) fn list_at<'a>(fields: &'a Table, name: &str) -> Option<&'a Array>
    ensures { option_map (λ elements. array_view elements.now) result ≡ list_at name.now (table_view fields.now) }
{
    match value_at(fields, name) {
        Some(value) => value.as_array(),
        None => None,
    }
}

/// The truth value at a name, if there is one.
#[tactic(auto, unfolding(crate::specs::Fields::truth_at))]
fn truth_at(fields: &Table, name: &str) -> Option<bool>
    ensures { result ≡ truth_at name.now (table_view fields.now) }
{
    match value_at(fields, name) {
        Some(value) => value.as_bool(),
        None => None,
    }
}

/// Whether the truth value at a name is true; it is false if none is there.
#[tactic(auto, unfolding(crate::specs::Fields::is_set))]
pub(crate) fn is_set(fields: &Table, name: &str) -> bool
    ensures { result ≡ is_set name.now (table_view fields.now) }
{
    truth_at(fields, name).unwrap_or(false)
}

/// The whole number at a name, if there is one from 0 to 255.
#[tactic(auto, unfolding(crate::specs::Fields::byte_at))]
pub(crate) fn byte_at(fields: &Table, name: &str) -> Option<u8>
    ensures { result ≡ byte_at name.now (table_view fields.now) }
{
    match whole_at(fields, name) {
        Some(whole) => u8::try_from(whole).ok(),
        None => None,
    }
}

/// The key that the text at a name names.
#[tactic(auto, using(crate::proofs::Laws::key_range), unfolding(crate::specs::Fields::key_at))]
pub(crate) fn key_at(fields: &Table, name: &str) -> Option<Key>
    ensures key { result ≡ key_at name.now (table_view fields.now) }
    ensures range { IfSome result (λ key. key < 84) }
{
    match text_at(fields, name) {
        Some(text) => key_named(text),
        None => None,
    }
}

/// Whether something else than a text is at the name.
#[tactic(auto, unfolding(crate::specs::Fields::is_not_text))]
pub(crate) fn is_not_text(fields: &Table, name: &str) -> bool
    ensures { result ≡ is_not_text name.now (table_view fields.now) }
{
    has_field(fields, name) && text_at(fields, name).is_none()
}

/// Whether something else than a whole number is at the name.
#[tactic(auto, unfolding(crate::specs::Fields::is_not_whole))]
pub(crate) fn is_not_whole(fields: &Table, name: &str) -> bool
    ensures { result ≡ is_not_whole name.now (table_view fields.now) }
{
    has_field(fields, name) && whole_at(fields, name).is_none()
}

/// Whether something else than a list is at the name.
#[tactic(auto, unfolding(crate::specs::Fields::is_not_list))]
pub(crate) fn is_not_list(fields: &Table, name: &str) -> bool
    ensures { result ≡ is_not_list name.now (table_view fields.now) }
{
    has_field(fields, name) && list_at(fields, name).is_none()
}

/// Whether something else than a truth value is at the name.
#[tactic(auto, unfolding(crate::specs::Fields::is_not_truth))]
pub(crate) fn is_not_truth(fields: &Table, name: &str) -> bool
    ensures { result ≡ is_not_truth name.now (table_view fields.now) }
{
    has_field(fields, name) && truth_at(fields, name).is_none()
}
