//! The program memory while lines fill it.

ghost use Rattle.std.specs.Prelude.{◌≡◌, ◌+◌, ◌≤◌, ◌<◌, ◌&&◌, ℕ, true, false, length, nat_le, nat_lt, slice_index};
ghost use Rattle.std.specs.Prelude.{slice_index_or};
ghost use Rattle.std.specs.List.{list_any, range_with_len};

/// Whether one of the places from one to another is filled.
pub(crate) fn is_any_filled(filled: &[bool], start: usize, end: usize) -> bool
    ensures { result ≡ list_any (λ place. nat_le start place && nat_lt place end
        && slice_index_or filled.now place false) (range_with_len 0 (length filled.now)) }
{
    for place in start..end.min(filled.len()) {
        if filled[place] {
            return true;
        }
    }
    false
}

/// Puts a line's bytes at the places from one on.
pub(crate) fn put(memory: &mut [u8], start: usize, bytes: &[u8])
    requires { start + length bytes.now ≤ length memory.old }
    ensures inside { (offset : ℕ) → offset < length bytes.now
        → slice_index memory.new (start + offset) ≡ slice_index bytes.now offset }
    ensures before { (place : ℕ) → place < start → slice_index memory.new place ≡ slice_index memory.old place }
    ensures afterwards { (place : ℕ) → start + length bytes.now ≤ place
        → slice_index memory.new place ≡ slice_index memory.old place }
{
    for (offset, byte) in bytes.iter().enumerate() {
        memory[start + offset] = *byte;
    }
}

/// Marks the places from one to another as filled.
pub(crate) fn mark(filled: &mut [bool], start: usize, end: usize)
    requires within { end ≤ length filled.old }
    requires ordered { start ≤ end }
    ensures inside { (place : ℕ) → start ≤ place → place < end → slice_index_or filled.new place false ≡ true }
    ensures before { (place : ℕ) → place < start → slice_index_or filled.new place false
        ≡ slice_index_or filled.old place false }
    ensures afterwards { (place : ℕ) → end ≤ place → slice_index_or filled.new place false
        ≡ slice_index_or filled.old place false }
{
    for place in start..end {
        filled[place] = true;
    }
}
