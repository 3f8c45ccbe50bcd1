//! A line without its comment.

ghost use Rattle.std.specs.Prelude.{◌≡◌, position};
ghost use Rattle.std.specs.List.{before_first};
ghost use Rattle.mcs48_asm.specs.Characters.{is_semicolon};

/// The place of the first semicolon in a line.
fn comment_in(line: &[u8]) -> Option<usize>
    ensures { result ≡ position is_semicolon line.now }
{
    line.iter().position(|character| *character == b';')
}

/// What is before the comment of a line.
pub(crate) fn before_comment(line: &[u8]) -> &[u8]
    ensures { result.now ≡ before_first is_semicolon line.now }
{
    match comment_in(line) {
        Some(place) => &line[..place],
        None => line,
    }
}
