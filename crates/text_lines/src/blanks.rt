//! Spaces and tabs.

ghost use Rattle.std.specs.Prelude.{◌≡◌};
ghost use Rattle.text_lines.specs.Fields.{is_blank, is_blank_line};

/// Whether the character is a space or a tab.
pub fn is_blank(character: u8) -> bool
    ensures blank { result ≡ is_blank character }
{
    character == b' ' || character == b'\t'
}

/// Whether a line has nothing but spaces and tabs.
pub fn is_blank_line(line: &[u8]) -> bool
    ensures blank { result ≡ is_blank_line line.now }
{
    line.iter().all(|character| is_blank(*character))
}
