//! The characters of a line, its letters in upper case.

ghost use Rattle.std.specs.Prelude.{◌≡◌};
ghost use Rattle.mcs48_asm.specs.Characters.{is_initial, is_word_character, is_blank, is_allowed};

/// Whether a name may begin with the character: a letter or _.
pub(crate) fn is_initial(character: u8) -> bool
    ensures { result ≡ is_initial character }
{
    character >= b'A' && character <= b'Z' || character == b'_'
}

/// Whether words are made of the character: a letter, a digit or _.
pub(crate) fn is_word_character(character: u8) -> bool
    ensures { result ≡ is_word_character character }
{
    is_initial(character) || character >= b'0' && character <= b'9'
}

/// Whether the character is a space or a tab.
pub(crate) fn is_blank(character: u8) -> bool
    ensures { result ≡ is_blank character }
{
    character == b' ' || character == b'\t'
}

/// Whether the character may be before a comment.
pub(crate) fn is_allowed(character: u8) -> bool
    ensures { result ≡ is_allowed character }
{
    is_word_character(character)
        || is_blank(character)
        || character == b'#'
        || character == b'@'
        || character == b','
        || character == b':'
}
