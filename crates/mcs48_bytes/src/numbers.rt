//! Numbers and truth values as bytes.

ghost use Rattle.std.specs.Prelude.{◌≡◌, ◌≤◌, ◌<◌, ◌+◌, length};
ghost use Rattle.mcs48_bytes.specs.Numbers.{maybe_at, number_at, truth_at, word_at};

/// The number of the two bytes from a place on.
pub fn word_at(bytes: &[u8], at: usize) -> u16
    requires { at + 2 ≤ length bytes.now }
    ensures { result ≡ word_at at bytes.now }
{
    u16::from_le_bytes([bytes[at], bytes[at + 1]])
}

/// The number of the eight bytes from a place on.
pub fn number_at(bytes: &[u8], at: usize) -> u64
    requires { at + 8 ≤ length bytes.now }
    ensures { result ≡ number_at at bytes.now }
{
    u64::from_le_bytes([
        bytes[at],
        bytes[at + 1],
        bytes[at + 2],
        bytes[at + 3],
        bytes[at + 4],
        bytes[at + 5],
        bytes[at + 6],
        bytes[at + 7],
    ])
}

/// Whether the byte at a place is 1.
pub fn truth_at(bytes: &[u8], at: usize) -> bool
    requires { at < length bytes.now }
    ensures { result ≡ truth_at at bytes.now }
{
    bytes[at] == 1
}

/// The byte after the one at a place, if that is 1.
pub fn maybe_at(bytes: &[u8], at: usize) -> Option<u8>
    requires { at + 2 ≤ length bytes.now }
    ensures { result ≡ maybe_at at bytes.now }
{
    if truth_at(bytes, at) {
        Some(bytes[at + 1])
    } else {
        None
    }
}
