//! Texts of bounded length, which take no memory: pieces that are appended to a list with room for them.

ghost use Rattle.std.specs.Prelude.{◌≡◌, ◌+◌, ◌≤◌, ◌++◌, length};
ghost use Rattle.arrayvec.specs.ArrayVec.{array_vec_len};

use arrayvec::ArrayVec;

/// Appends a piece, for which there is room.
pub fn append<const N: usize>(text: &mut ArrayVec<u8, N>, piece: &[u8])
    requires { array_vec_len text.old + length piece.now ≤ N }
    ensures { text.new.items ≡ text.old.items ++ piece.now }
{
    let _ = text.try_extend_from_slice(piece);
}

/// A text that is this piece, for which there is room.
pub fn begun<const N: usize>(piece: &[u8]) -> ArrayVec<u8, N>
    requires { length piece.now ≤ N }
    ensures { result.items ≡ piece.now }
{
    let mut text = ArrayVec::new();
    append(&mut text, piece);
    text
}
