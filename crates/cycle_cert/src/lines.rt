//! The lines of a certificate.
//!
//! Source: our own.

ghost use Rattle.std.specs.Prelude.{◌≡◌, ◌≤◌, ◌<◌, IfSome};
ghost use Rattle.text_lines.specs.Fields.{pieces};
ghost use Rattle.cycle_cert.specs.Lines.{place_in, number_in, register_in, target_in, bound_from, entry_in};

use crate::bound::Bound;
use crate::certificate::Entry;
use mcs48_isa::PLACES;
use text_lines::{decimal, decimal_digit, hexadecimal, single, split_once};

/// The greatest number of cycles that a bound may fix.
const MOST_FIXED: u32 = 1_000_000;

/// The greatest factor of a register's weight.
const MOST_FACTOR: u32 = 10_000;

/// The number that decimal digits write, one at least, if it is at most `limit`. None for every other text.
fn number(limit: u32, text: &[u8]) -> Option<u32>
    requires { limit ≤ 1000000 }
    ensures { result ≡ number_in limit text.now }
{
    if text.is_empty() {
        return None;
    }
    let mut number = 0;
    for character in text {
        number = 10 * number + u32::from(decimal_digit(*character)?);
        if number > limit {
            return None;
        }
    }
    Some(number)
}

/// The place, 0 to 2,047, that three hexadecimal digits write. None for every other text.
fn place(text: &[u8]) -> Option<u16>
    ensures place { result ≡ place_in text.now }
    ensures within { IfSome result (λ place. place < 2048) }
{
    let number = hexadecimal(3, text)?;
    (number < PLACES as u32).then_some(number as u16)
}

/// The register, 0 to 7, that a digit names. None for every other text.
fn register(text: &[u8]) -> Option<u8>
    ensures register { result ≡ register_in text.now }
    ensures within { IfSome result (λ register. register < 8) }
{
    let number = decimal(1, text)?;
    (number < 8).then_some(number as u8)
}

/// The place that a certificate's first line gives as its target. None if the line hasn't the form.
pub(crate) fn target(line: &[u8]) -> Option<u16>
    ensures target { result ≡ target_in line.now }
    ensures within { IfSome result (λ place. place < 2048) }
{
    let (word, rest) = split_once(b' ', line)?;
    if word != b"target".as_slice() {
        return None;
    }
    place(single(b' ', rest)?)
}

/// The bound that the fields after a place give. None if they haven't the form.
fn bound(text: &[u8]) -> Option<Bound>
    ensures bound { result ≡ bound_from (pieces 32 text.now) }
    ensures register { IfSome result (λ bound. bound.register < 8) }
{
    let Some((fixed, rest)) = split_once(b' ', text) else {
        return Some(Bound {
            fixed: number(MOST_FIXED, text)?,
            factor: 0,
            register: 0,
        });
    };
    let fixed = number(MOST_FIXED, fixed)?;
    let (factor, rest) = split_once(b' ', rest)?;
    let factor = number(MOST_FACTOR, factor)?;
    let register = register(single(b' ', rest)?)?;
    Some(Bound {
        fixed,
        factor,
        register,
    })
}

/// The entry of a line with this number, one after the first. None if the line hasn't the form.
pub(crate) fn entry(number: u32, line: &[u8]) -> Option<Entry>
    ensures entry { result ≡ entry_in number line.now }
    ensures within { IfSome result (λ entry. entry.place < 2048) }
    ensures register { IfSome result (λ entry. entry.bound.register < 8) }
{
    let (place_text, rest) = split_once(b' ', line)?;
    let place = place(place_text)?;
    let bound = bound(rest)?;
    Some(Entry {
        line: number,
        place,
        bound,
    })
}
