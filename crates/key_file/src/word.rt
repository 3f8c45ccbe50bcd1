//! The words of a key file.

ghost use Rattle.std.specs.Prelude.{◌≡◌};
ghost use Rattle.key_file.specs.Fields.{word_named};

/// The word of a line, after its stamp.
#[derive(Clone, Copy, Drop)]
pub(crate) enum Word {
    Press,
    Release,
    Write60,
    Write64,
    Read60,
    Mask,
    Unmask,
    Take,
    Status,
    Flip,
    End,
}

/// The word that is spelled so; None if there is no such word.
pub(crate) fn word_named(name: &[u8]) -> Option<Word>
    ensures { result ≡ word_named name.now }
{
    match name {
        b"press" => Some(Word::Press),
        b"release" => Some(Word::Release),
        b"write60" => Some(Word::Write60),
        b"write64" => Some(Word::Write64),
        b"read60" => Some(Word::Read60),
        b"mask" => Some(Word::Mask),
        b"unmask" => Some(Word::Unmask),
        b"take" => Some(Word::Take),
        b"status" => Some(Word::Status),
        b"flip" => Some(Word::Flip),
        b"end" => Some(Word::End),
        _ => None,
    }
}
