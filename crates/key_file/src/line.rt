//! What a line says.

ghost use Rattle.std.specs.Prelude.{◌≡◌, ◌∷◌};
ghost use Rattle.std.specs.Option.{option_map, option_and_then};
ghost use Rattle.text_lines.specs.Fields.{fields};
ghost use Rattle.text_lines.specs.Numbers.{hexadecimal_of};
ghost use Rattle.key_file.specs.declared.event.Event.TheVariants.{HostOf};
ghost use Rattle.key_file.specs.Fields.{stamp_of, only, place_named, edge_of, write_of, bit_of, flip_of, act_of, alone};
ghost use Rattle.key_file.specs.Fields.{event_of, event_in, said_by};

use crate::event::Event;
use crate::rule::Rule;
use crate::word::{Word, word_named};
use board_terms::{Edge, HostAct, HostEvent, Place};
use layout_reader::Layout;
use pc_tables::key_spelled;
use text_lines::{decimal, hexadecimal, next_field};

/// The cycles of a millisecond.
const PER_MILLISECOND: u64 = 400;

/// The most digits of a stamp.
const STAMP_DIGITS: usize = 9;

/// The stamp that a field writes, in cycles, 0 to 399,999,999,600; None for any other field.
fn stamp_of(field: &[u8]) -> Option<u64>
    ensures { result ≡ stamp_of field.now }
{
    match field {
        [digits @ .., b'm', b's'] => {
            decimal(STAMP_DIGITS, digits).map(|number| PER_MILLISECOND * u64::from(number))
        }
        _ => decimal(STAMP_DIGITS, field).map(u64::from),
    }
}

/// The one field of a text; None if it has none or more.
fn only(arguments: &[u8]) -> Option<&[u8]>
    ensures { option_map (λ argument. argument.now) result ≡ only (fields arguments.now) }
{
    let (argument, others) = next_field(arguments)?;
    match next_field(others) {
        None => Some(argument),
        Some(_) => None,
    }
}

/// The place of the key with this name; None if the layout has no entry with it.
fn place_named(layout: &Layout, name: &[u8]) -> Option<Place>
    ensures { result ≡ place_named layout.now name.now }
{
    layout.place_of(key_spelled(name)?)
}

/// An edge of the key that the argument names, or the first rule that is broken.
fn edge_of(layout: &Layout, stamp: u64, down: bool, arguments: &[u8]) -> Result<Event, Rule>
    ensures { result ≡ edge_of layout.now stamp down (fields arguments.now) }
{
    let name = only(arguments).ok_or(Rule::Form)?;
    let place = place_named(layout, name).ok_or(Rule::UnknownKey)?;
    Ok(Event::EdgeOf(Edge { stamp, place, down }))
}

/// The byte that the argument gives; None if there isn't one argument of two hexadecimal digits.
fn byte_of(arguments: &[u8]) -> Option<u8>
    ensures { result ≡ option_and_then (hexadecimal_of 2) (only (fields arguments.now)) }
{
    let number = hexadecimal(2, only(arguments)?)?;
    Some(number as u8)
}

/// The number of a bit, 1 to 9, that a field writes by one digit; None for any other field.
fn bit_of(field: &[u8]) -> Option<u8>
    ensures { result ≡ bit_of field.now }
{
    match decimal(1, field)? {
        0 => None,
        bit => Some(bit as u8),
    }
}

/// Noise that turns round the bit that the argument gives, or the rule of form, if there is none.
fn flip_of(stamp: u64, arguments: &[u8]) -> Result<Event, Rule>
    ensures { result ≡ flip_of stamp (fields arguments.now) }
{
    let bit = only(arguments).and_then(bit_of).ok_or(Rule::Form)?;
    Ok(host(stamp, HostAct::Flip(bit)))
}

/// An event of the host.
fn host(stamp: u64, act: HostAct) -> Event
    ensures { result ≡ HostOf (record { stamp = stamp; act = act }) }
{
    Event::HostOf(HostEvent { stamp, act })
}

/// What the host does without an argument, or the rule of form, if there is one.
fn act_of(stamp: u64, act: HostAct, arguments: &[u8]) -> Result<Event, Rule>
    ensures { result ≡ act_of stamp act (fields arguments.now) }
{
    alone(host(stamp, act), arguments)
}

/// An event without an argument, or the rule of form, if there is one.
fn alone(event: Event, arguments: &[u8]) -> Result<Event, Rule>
    ensures { result ≡ alone event (fields arguments.now) }
{
    match next_field(arguments) {
        None => Ok(event),
        Some(_) => Err(Rule::Form),
    }
}

/// The event that a known word gives with its arguments, or the first rule that is broken.
fn event_of(layout: &Layout, stamp: u64, word: Word, arguments: &[u8]) -> Result<Event, Rule>
    ensures { result ≡ event_of layout.now stamp word (fields arguments.now) }
{
    match word {
        Word::Press => edge_of(layout, stamp, true, arguments),
        Word::Release => edge_of(layout, stamp, false, arguments),
        Word::Write60 => {
            let byte = byte_of(arguments).ok_or(Rule::Form)?;
            Ok(host(stamp, HostAct::Write60(byte)))
        }
        Word::Write64 => {
            let byte = byte_of(arguments).ok_or(Rule::Form)?;
            Ok(host(stamp, HostAct::Write64(byte)))
        }
        Word::Read60 => act_of(stamp, HostAct::Read60, arguments),
        Word::Mask => act_of(stamp, HostAct::Mask, arguments),
        Word::Unmask => act_of(stamp, HostAct::Unmask, arguments),
        Word::Take => act_of(stamp, HostAct::Take, arguments),
        Word::Status => act_of(stamp, HostAct::Status, arguments),
        Word::Flip => flip_of(stamp, arguments),
        Word::End => alone(Event::End(stamp), arguments),
    }
}

/// The event of a line that isn't skipped, by its first field and the text after that, or the first of the rules of
/// form, word and key that it breaks.
pub(crate) fn event_in(layout: &Layout, first: &[u8], others: &[u8]) -> Result<Event, Rule>
    ensures { result ≡ event_in layout.now (first.now ∷ fields others.now) }
{
    let (second, arguments) = next_field(others).ok_or(Rule::Form)?;
    let stamp = stamp_of(first).ok_or(Rule::Form)?;
    let word = word_named(second).ok_or(Rule::UnknownWord)?;
    event_of(layout, stamp, word, arguments)
}

/// What a line says, or the first of the rules of form, word and key that it breaks; None if the line is skipped.
pub(crate) fn said_by(layout: &Layout, text: &[u8]) -> Result<Option<Event>, Rule>
    ensures { result ≡ said_by layout.now (fields text.now) }
{
    let Some((first, others)) = next_field(text) else {
        return Ok(None);
    };
    if first.starts_with(b"#") {
        return Ok(None);
    }
    Ok(Some(event_in(layout, first, others)?))
}
