//! The words of a dump that this reader knows.

ghost use Rattle.std.specs.Prelude.{◌≡◌};
ghost use Rattle.capture_vcd.specs.Words.{begins_dollar, is_comment, is_end, is_mark, keyword_of};

/// What a word of the header begins.
#[derive(Clone, Copy, Drop)]
pub(crate) enum Keyword {
    /// The unit of time.
    Timescale,
    /// A signal.
    Var,
    /// The end of the header.
    Enddefinitions,
    /// A section that says nothing of time and signals.
    Other,
}

/// The section that a token of the header begins; None if it begins none.
pub(crate) fn keyword_in(text: &[u8]) -> Option<Keyword>
    ensures { result ≡ keyword_of text.now }
{
    if text == b"$timescale".as_slice() {
        Some(Keyword::Timescale)
    } else if text == b"$var".as_slice() {
        Some(Keyword::Var)
    } else if text == b"$enddefinitions".as_slice() {
        Some(Keyword::Enddefinitions)
    } else if is_end(text) {
        None
    } else {
        begins_dollar(text).then_some(Keyword::Other)
    }
}

/// Whether a token begins with a dollar sign.
fn begins_dollar(text: &[u8]) -> bool
    ensures { result ≡ begins_dollar text.now }
{
    match text {
        [b'$', ..] => true,
        _ => false,
    }
}

/// Whether a token ends a section.
pub(crate) fn is_end(text: &[u8]) -> bool
    ensures { result ≡ is_end text.now }
{
    text == b"$end".as_slice()
}

/// Whether a token begins a comment.
pub(crate) fn is_comment(text: &[u8]) -> bool
    ensures { result ≡ is_comment text.now }
{
    text == b"$comment".as_slice()
}

/// Whether a token is a mark round values: they are read as changes.
pub(crate) fn is_mark(text: &[u8]) -> bool
    ensures { result ≡ is_mark text.now }
{
    is_end(text)
        || text == b"$dumpvars".as_slice()
        || text == b"$dumpall".as_slice()
        || text == b"$dumpon".as_slice()
        || text == b"$dumpoff".as_slice()
}
