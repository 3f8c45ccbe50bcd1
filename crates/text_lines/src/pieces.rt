//! The pieces of a text between marks.

ghost use Rattle.std.specs.Prelude.{◌≡◌, ◌∷◌, ◌<◌, ◌==◌, [], IfSome, MatchOption, length, position};
ghost use Rattle.std.specs.List.{slice_split};
ghost use Rattle.text_lines.specs.Fields.{HasMore, is_blank, pieces};

use crate::blanks::is_blank;

/// The place of the first such mark in a text.
fn place_of(mark: u8, text: &[u8]) -> Option<usize>
    ensures { result ≡ position (λ character. character == mark) text.now }
{
    text.iter().position(|character| *character == mark)
}

/// The first piece of a text before a mark, and the text after that mark; None if it has no such mark, and is one
/// piece. A piece may be empty. Fields that are parted by single spaces are the pieces between spaces.
pub fn split_once(mark: u8, text: &[u8]) -> Option<(&[u8], &[u8])>
    ensures pieces { MatchOption result (pieces mark text.now ≡ text.now ∷ [])
        (λ parts. pieces mark text.now ≡ parts.0.now ∷ pieces mark parts.1.now) }
    ensures shorter { IfSome result (λ parts. length parts.1.now < length text.now) }
{
    match place_of(mark, text) {
        Some(place) => Some((&text[..place], &text[place + 1..])),
        None => None,
    }
}

/// A text that has no such mark, and is one piece; None if it has one.
pub fn single(mark: u8, text: &[u8]) -> Option<&[u8]>
    ensures pieces { MatchOption result (HasMore (pieces mark text.now))
        (λ piece. (piece.now ≡ text.now) × (pieces mark text.now ≡ text.now ∷ [])) }
{
    match split_once(mark, text) {
        Some(_) => None,
        None => Some(text),
    }
}

/// The place of the first space or tab in a text.
fn blank_in(text: &[u8]) -> Option<usize>
    ensures { result ≡ position is_blank text.now }
{
    text.iter().position(|character| is_blank(*character))
}

/// The same as `split_once`, at the first space or tab.
pub(crate) fn split_at_blank(text: &[u8]) -> Option<(&[u8], &[u8])>
    ensures pieces { MatchOption result (slice_split is_blank text.now ≡ text.now ∷ [])
        (λ parts. slice_split is_blank text.now ≡ parts.0.now ∷ slice_split is_blank parts.1.now) }
    ensures shorter { IfSome result (λ parts. length parts.1.now < length text.now) }
{
    match blank_in(text) {
        Some(place) => Some((&text[..place], &text[place + 1..])),
        None => None,
    }
}
