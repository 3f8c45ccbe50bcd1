//! Counts of calls, and the numbers of the calls that fail.

ghost use Rattle.std.specs.Prelude.{◌≡◌, nat_eq};
ghost use Rattle.std.specs.List.{list_any};

/// Whether a number, from 1, is in the list of those that fail.
pub fn is_among(number: u64, fails: &[u32]) -> bool
    ensures among { result ≡ list_any (nat_eq number) fails.now }
{
    fails.iter().any(|fail| number == u64::from(*fail))
}
