//! Words and tokens: unbroken runs of letters, digits and _, the marks before them, and commas.

ghost use Rattle.std.specs.Prelude.{◌≡◌, ◌≤◌, ◌∷◌, [], true, false, length, take, drop, slice_index, MatchOption};
ghost use Rattle.std.specs.List.{list_all};
ghost use Rattle.std.specs.Option.{option_map};
ghost use Rattle.mcs48_asm.specs.Characters.{is_word_character, is_blank};
ghost use Rattle.mcs48_asm.specs.Tokens.{words_of, first_of, second_of, goes_on, tokens_of, only_of, alone, is_name};
ghost use Rattle.mcs48_asm.specs.Tokens.{name_of};

use crate::characters::{is_blank, is_initial, is_word_character};

/// The most characters of a name.
const LONGEST: usize = 31;

/// A text without the blanks at its start.
fn unindented(text: &[u8]) -> &[u8]
    ensures tokens { tokens_of text.now ≡ tokens_of result.now }
    ensures first { is_blank (slice_index result.now 0) ≡ false }
{
    let mut rest = text;
    while let [first, more @ ..] = rest
        && is_blank(*first)
    {
        rest = more;
    }
    rest
}

/// How many letters, digits and _ a text begins with.
fn run_length(text: &[u8]) -> usize
    ensures within { result ≤ length text.now }
    ensures run { list_all is_word_character (take result text.now) ≡ true }
    ensures ends { goes_on (drop result text.now) ≡ false }
{
    let mut end = 0;
    while end < text.len() && is_word_character(text[end]) {
        end += 1;
    }
    end
}

/// How many letters, digits and _ belong to the token that a character begins; a comma is one of its own.
fn token_length(first: u8, afterwards: &[u8]) -> usize
    requires { is_blank first ≡ false }
    ensures within { result ≤ length afterwards.now }
    ensures token { tokens_of (first ∷ afterwards.now) ≡ (first ∷ take result afterwards.now) ∷ tokens_of
        (drop result afterwards.now) }
{
    if first == b',' {
        0
    } else {
        run_length(afterwards)
    }
}

/// The first token of a text and what is after it; None if it has no token.
pub(crate) fn next_token(text: &[u8]) -> Option<(&[u8], &[u8])>
    ensures { MatchOption result (tokens_of text.now ≡ []) (λ parts. tokens_of text.now
        ≡ parts.0.now ∷ tokens_of parts.1.now) }
{
    let tokens = unindented(text);
    let [first, afterwards @ ..] = tokens else {
        return None;
    };
    Some(tokens.split_at(token_length(*first, afterwards) + 1))
}

/// The token that is alone in a text.
pub(crate) fn only_token(text: &[u8]) -> Option<&[u8]>
    ensures { option_map (λ token. token.now) result ≡ only_of (tokens_of text.now) }
{
    let (token, rest) = next_token(text)?;
    match next_token(rest) {
        None => Some(token),
        Some(_) => None,
    }
}

/// The first word of a text, or nothing, and what is after it.
fn next_word(text: &[u8]) -> (&[u8], &[u8])
    ensures first { result.0.now ≡ first_of (words_of text.now) }
    ensures others { first_of (words_of result.1.now) ≡ second_of (words_of text.now) }
{
    let mut rest = text;
    while let [first, more @ ..] = rest {
        if is_word_character(*first) {
            return rest.split_at(run_length(rest));
        }
        rest = more;
    }
    (rest, rest)
}

/// The first and the second word of a text; one that is missing is empty.
pub(crate) fn two_words(text: &[u8]) -> (&[u8], &[u8])
    ensures first { result.0.now ≡ first_of (words_of text.now) }
    ensures second { result.1.now ≡ second_of (words_of text.now) }
{
    let (first, rest) = next_word(text);
    let (second, _) = next_word(rest);
    (first, second)
}

/// Whether a text is made of letters, digits and _ alone.
fn are_word_characters(text: &[u8]) -> bool
    ensures { result ≡ list_all is_word_character text.now }
{
    text.iter().all(|character| is_word_character(*character))
}

/// Whether a token is a name.
pub(crate) fn is_name(token: &[u8]) -> bool
    ensures { result ≡ is_name token.now }
{
    let [first, rest @ ..] = token else {
        return false;
    };
    is_initial(*first) && are_word_characters(rest) && token.len() <= LONGEST
}

/// The name that is alone in a text.
pub(crate) fn only_name(text: &[u8]) -> Option<&[u8]>
    ensures { option_map (λ name. name.now) result ≡ alone name_of (tokens_of text.now) }
{
    let name = only_token(text)?;
    is_name(name).then_some(name)
}
