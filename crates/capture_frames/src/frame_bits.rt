//! The levels of data in a frame.

ghost use Rattle.std.specs.Prelude.{◌≡◌, ◌≤◌, ◌<◌, ◌^◌, length};
ghost use Rattle.board_terms.specs.Bits.{is_odd, value};

/// The number that at most eight levels are, the lowest first.
pub(crate) fn value(bits: &[bool]) -> u8
    requires { length bits.now ≤ 8 }
    ensures value { result ≡ value bits.now }
    ensures range { result < 2 ^ length bits.now }
{
    match bits {
        [] => 0,
        [bit, rest @ ..] => 2 * value(rest) + *bit as u8,
    }
}

/// Whether an odd number of the levels are high.
pub(crate) fn is_odd(bits: &[bool]) -> bool
    ensures { result ≡ is_odd bits.now }
{
    match bits {
        [] => false,
        [bit, rest @ ..] => *bit != is_odd(rest),
    }
}
