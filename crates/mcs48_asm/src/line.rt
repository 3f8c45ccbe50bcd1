//! What a line says.

ghost use Rattle.std.specs.Prelude.{◌≡◌, ◌==◌, ◌||◌, ◌∷◌, [], length};
ghost use Rattle.std.specs.List.{list_all, slice_split};
ghost use Rattle.std.specs.Option.{option_map};
ghost use Rattle.mcs48_asm.specs.Characters.{is_allowed, is_colon};
ghost use Rattle.mcs48_asm.specs.Tokens.{words_of};
ghost use Rattle.mcs48_asm.specs.Statements.{statement_of, flawed, line_with, line_of_parts, is_known_word, is_spelled};
ghost use Rattle.mcs48_asm.specs.Capped.{line_capped};
ghost use Rattle.mcs48_asm.specs.Kept.{line_seen, kept_line};

use crate::characters::{is_allowed, is_word_character};
use crate::flaw::Flaw;
use crate::pieces::before_comment;
use crate::statement::{Statement, statement_of};
use crate::values::number_of;
use crate::words::{is_name, only_name};
use text_lines::split_once;

/// A line. If it has a fault of form, it says nothing.
#[derive(Clone, Copy)]
pub(crate) struct Line<'a> {
    /// What is wrong with its form.
    pub(crate) flaw: Option<Flaw>,
    /// The label.
    pub(crate) label: Option<&'a [u8]>,
    /// The statement.
    pub(crate) statement: Statement<'a>,
}

/// A line whose form has this flaw.
fn flawed<'a>(flaw: Flaw) -> Line<'a>
    ensures { line_seen result ≡ flawed flaw }
{
    Line {
        flaw: Some(flaw),
        label: None,
        statement: Statement::Nothing,
    }
}

/// Whether each character may be before a comment.
fn are_allowed(text: &[u8]) -> bool
    ensures { result ≡ list_all is_allowed text.now }
{
    text.iter().all(|character| is_allowed(*character))
}

/// Whether a word is nothing, a name or a number.
fn is_known_word(word: &[u8]) -> bool
    ensures { result ≡ (length word.now == 0 || is_known_word word.now) }
{
    word.is_empty() || is_name(word) || number_of(word).is_some()
}

/// Whether each word of a text is a name or a number.
fn are_known_words(text: &[u8]) -> bool
    ensures { result ≡ list_all is_known_word (words_of text.now) }
{
    text.split(|character| !is_word_character(*character))
        .all(|word| is_known_word(word))
}

/// Whether each character may be before a comment, and each word is a name or a number.
fn is_spelled(text: &[u8]) -> bool
    ensures { result ≡ is_spelled text.now }
{
    are_allowed(text) && are_known_words(text)
}

/// A line with this label, if it has one, and with what a statement gave.
fn line_with<'a>(label: Option<&'a [u8]>, text: &'a [u8]) -> Line<'a>
    ensures { line_seen result ≡ line_capped (line_with (option_map (λ name. name.now) label.entry)
        (statement_of text.now)) }
{
    match statement_of(text) {
        Ok(statement) => Line {
            flaw: None,
            label,
            statement,
        },
        Err(flaw) => flawed(flaw),
    }
}

/// The line that a label and what is after its colon give.
fn labelled<'a>(label: &'a [u8], text: &'a [u8]) -> Line<'a>
    ensures { line_seen result ≡ line_capped (line_of_parts (label.now ∷ text.now ∷ [])) }
{
    match only_name(label) {
        Some(name) => line_with(Some(name), text),
        None => flawed(Flaw::Syntax),
    }
}

/// The line that a text gives in which each character and each word may be.
fn line_in(text: &[u8]) -> Line<'_>
    ensures { line_seen result ≡ line_capped (line_of_parts (slice_split is_colon text.now)) }
{
    let Some((label, rest)) = split_once(b':', text) else {
        return line_with(None, text);
    };
    match split_once(b':', rest) {
        None => labelled(label, rest),
        Some(_) => flawed(Flaw::Syntax),
    }
}

/// What a line says, its letters in upper case.
pub(crate) fn line_of(line: &[u8]) -> Line<'_>
    ensures { line_seen result ≡ kept_line line.now }
{
    let text = before_comment(line);
    if is_spelled(text) {
        line_in(text)
    } else {
        flawed(Flaw::Syntax)
    }
}
