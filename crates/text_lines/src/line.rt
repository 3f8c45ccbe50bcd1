//! The lines of a text.

ghost use Rattle.std.specs.Prelude.{◌≡◌, ◌∷◌, ◌<◌, [], IfSome, MatchOption, length};
ghost use Rattle.std.specs.Str.Lines.{lines, strip_carriage_return};

use crate::pieces::split_once;

/// What is before an LF, without a CR at its end.
fn without_return(line: &[u8]) -> &[u8]
    ensures { result.now ≡ strip_carriage_return line.now }
{
    match line {
        [before @ .., b'\r'] => before,
        _ => line,
    }
}

/// The first line of a text, and the text of the other lines; None if it has no line.
///
/// Lines end with LF, or with CR and LF, which aren't theirs. A last piece without LF is a line if it isn't empty,
/// and keeps a CR at its end.
pub fn next_line(text: &[u8]) -> Option<(&[u8], &[u8])>
    ensures lines { MatchOption result (lines text.now ≡ []) (λ parts. lines text.now ≡ parts.0.now ∷ lines parts.1.now) }
    ensures shorter { IfSome result (λ parts. length parts.1.now < length text.now) }
{
    match split_once(b'\n', text) {
        Some((line, after)) => Some((without_return(line), after)),
        None if text.is_empty() => None,
        None => Some((text, &text[text.len()..])),
    }
}
