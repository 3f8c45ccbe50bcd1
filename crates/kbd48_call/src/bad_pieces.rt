//! Which pieces are bad ones, judged before any memory is taken.

ghost use Rattle.std.specs.Prelude.{◌≡◌};
ghost use Rattle.kbd48_call.specs.Pieces.{has_bad_file, has_bad_word, is_bad_file, is_bad_text, is_outside};

use crate::pieces::{Named, Piece};

/// Whether a piece ends before it begins, or after the last byte.
fn is_outside(bytes: &[u8], piece: Piece) -> bool
    ensures { result ≡ is_outside bytes.now piece }
{
    piece.end < piece.start || bytes.len() < piece.end
}

/// Whether a word or a name isn't within the bytes, or is no UTF-8 text.
#[tactic(auto, using(crate::proofs::Judging::good_piece, crate::proofs::Judging::bad_piece))]
fn is_bad_text(bytes: &[u8], piece: Piece) -> bool
    ensures { result ≡ is_bad_text bytes.now piece }
{
    match bytes.get(piece.start..piece.end) {
        Some(found) => match std::str::from_utf8(found) {
            Ok(_) => false,
            Err(_) => true,
        },
        None => true,
    }
}

/// Whether a file has a bad name, or isn't within the bytes.
fn is_bad_file(bytes: &[u8], one: Named) -> bool
    ensures { result ≡ is_bad_file bytes.now one }
{
    is_bad_text(bytes, one.name) || is_outside(bytes, one.file)
}

/// Whether a word is a bad piece.
#[tactic(auto, using(crate::proofs::Judging::more_words, crate::proofs::Judging::bad_word))]
pub(crate) fn has_bad_word(bytes: &[u8], words: &[Piece]) -> bool
    ensures { result ≡ has_bad_word bytes.now words.now }
{
    for word in words {
        if is_bad_text(bytes, *word) {
            return true;
        }
    }
    false
}

/// Whether a file is a bad piece, or has a bad name.
#[tactic(auto, using(crate::proofs::Judging::more_files, crate::proofs::Judging::bad_file))]
pub(crate) fn has_bad_file(bytes: &[u8], files: &[Named]) -> bool
    ensures { result ≡ has_bad_file bytes.now files.now }
{
    for one in files {
        if is_bad_file(bytes, *one) {
            return true;
        }
    }
    false
}
