//! The top level of the document.

ghost use Rattle.std.specs.Prelude.{◌≡◌, ◌<◌, IfSome, IfOk};
ghost use Rattle.toml.specs.View.{table_view, items_view};
ghost use Rattle.layout_reader.specs.TopLevel.{format_in, rate_in, elements_in, is_empty, header_from};

use crate::cause::Cause;
use crate::fields::{
    Format, Level, byte_at, has_field, has_other_field, is_not_list, is_not_text, is_not_truth,
    is_not_whole, is_set, list_at, whole_at,
};
use toml::{Table, Value};

/// The keyboard's rate byte if the document names none: a delay of 500 ms, then 10 characters a second.
pub(crate) const DEFAULT_RATE: u8 = 44;

/// What the top level says of the whole document: its format, the keyboard's rate byte at power-on, and whether keys are
/// debounced.
#[derive(Clone, Copy, PartialEq, Eq)]
pub(crate) struct Header {
    pub(crate) format: Format,
    pub(crate) rate: u8,
    pub(crate) debounce: bool,
}

/// The format of the document; None if its number is another.
#[tactic(auto, unfolding(crate::specs::TopLevel::format_in))]
fn format_in(top: &Table) -> Option<Format>
    ensures { result ≡ format_in (table_view top.now) }
{
    match whole_at(top, "format") {
        Some(1) => Some(Format::One),
        Some(2) => Some(Format::Two),
        _ => None,
    }
}

/// The rate of the document; None if it is out of range.
#[tactic(auto, unfolding(crate::specs::TopLevel::rate_in))]
fn rate_in(top: &Table) -> Option<u8>
    ensures rate { result ≡ rate_in (table_view top.now) }
    ensures range { IfSome result (λ rate. rate < 128) }
{
    if !has_field(top, "rate") {
        return Some(DEFAULT_RATE);
    }
    match byte_at(top, "rate") {
        Some(rate) if rate < 128 => Some(rate),
        _ => None,
    }
}

/// The elements of the document's list of entries.
#[tactic(auto, unfolding(crate::specs::TopLevel::elements_in))]
pub(crate) fn elements_in(top: &Table) -> &[Value]
    ensures { items_view result.now ≡ elements_in (table_view top.now) }
{
    match list_at(top, "key") {
        Some(elements) => elements.as_slice(),
        None => &[],
    }
}

/// Whether the document's list of entries is empty.
#[tactic(auto, using(crate::proofs::Names::is_empty_view))]
fn has_no_entries(top: &Table) -> bool
    ensures { result ≡ is_empty (elements_in (table_view top.now)) }
{
    elements_in(top).is_empty()
}

/// What the top level says, or its first fault in the order of judgement.
#[tactic(auto, unfolding(crate::specs::TopLevel::header_from))]
pub(crate) fn header_from(top: &Table) -> Result<Header, Cause>
    ensures header { result ≡ header_from (table_view top.now) }
    ensures range { IfOk result (λ header. header.rate < 128) }
{
    if has_other_field(top, Level::Top) {
        return Err(Cause::UnknownField);
    }
    if !has_field(top, "format") || !has_field(top, "key") {
        return Err(Cause::MissingField);
    }
    if is_not_whole(top, "format")
        || is_not_list(top, "key")
        || is_not_text(top, "name")
        || is_not_whole(top, "rate")
        || is_not_truth(top, "debounce")
    {
        return Err(Cause::WrongKind);
    }
    let Some(format) = format_in(top) else {
        return Err(Cause::WrongFormat);
    };
    let Some(rate) = rate_in(top) else {
        return Err(Cause::RateOutOfRange);
    };
    if has_no_entries(top) {
        return Err(Cause::NoEntries);
    }
    Ok(Header {
        format,
        rate,
        debounce: is_set(top, "debounce"),
    })
}
