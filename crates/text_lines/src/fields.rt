//! Fields that are parted by spaces and tabs.

ghost use Rattle.std.specs.Prelude.{◌≡◌, ◌∷◌, ◌≤◌, ◌<◌, [], IfSome, MatchOption, length};
ghost use Rattle.text_lines.specs.Fields.{fields, begins_blank};
ghost use Rattle.std.specs.Prelude.{false};

use crate::blanks::is_blank;
use crate::pieces::split_at_blank;

/// A text without the spaces and tabs at its start.
fn unindented(text: &[u8]) -> &[u8]
    ensures fields { fields text.now ≡ fields result.now }
    ensures first { begins_blank result.now ≡ false }
    ensures within { length result.now ≤ length text.now }
{
    let mut rest = text;
    while let [first, more @ ..] = rest
        && is_blank(*first)
    {
        rest = more;
    }
    rest
}

/// The first field of a text, and a text that has the others; None if it has no field.
///
/// Fields are parted by spaces and tabs, one or more, which may also be before the first and after the last.
pub fn next_field(text: &[u8]) -> Option<(&[u8], &[u8])>
    ensures fields { MatchOption result (fields text.now ≡ []) (λ parts. fields text.now ≡ parts.0.now ∷ fields parts.1.now) }
    ensures shorter { IfSome result (λ parts. length parts.1.now < length text.now) }
{
    let fields = unindented(text);
    if fields.is_empty() {
        return None;
    }
    match split_at_blank(fields) {
        Some(parts) => Some(parts),
        None => Some((fields, &fields[fields.len()..])),
    }
}
