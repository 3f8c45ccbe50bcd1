//! The unit of time.

ghost use Rattle.std.specs.Prelude.{◌≡◌, ◌≤◌};
ghost use Rattle.capture_vcd.specs.Units.{count_of, nanoseconds, unit_of, unit_with};

/// How many of its measures a unit of time is.
#[derive(Clone, Copy, Drop)]
pub(crate) enum Count {
    One,
    Ten,
    Hundred,
}

/// A unit of time.
#[derive(Clone, Copy, Drop)]
pub(crate) enum Unit {
    /// 1 ns.
    Ns,
    /// 10 ns.
    TenNs,
    /// 100 ns.
    HundredNs,
    /// 1 µs.
    Us,
    /// 10 µs.
    TenUs,
}

impl Unit {
    /// The unit in nanoseconds.
    pub(crate) fn nanoseconds(self) -> u64
        ensures is { result ≡ nanoseconds self }
        ensures most { result ≤ 10000 }
    {
        match self {
            Unit::Ns => 1,
            Unit::TenNs => 10,
            Unit::HundredNs => 100,
            Unit::Us => 1_000,
            Unit::TenUs => 10_000,
        }
    }
}

/// The count that a token writes, if its measure is a token of its own.
pub(crate) fn count_in(text: &[u8]) -> Option<Count>
    ensures { result ≡ count_of text.now }
{
    if text == b"1".as_slice() {
        Some(Count::One)
    } else if text == b"10".as_slice() {
        Some(Count::Ten)
    } else if text == b"100".as_slice() {
        Some(Count::Hundred)
    } else {
        None
    }
}

/// The unit that a token writes with its count.
pub(crate) fn unit_in(text: &[u8]) -> Option<Unit>
    ensures { result ≡ unit_of text.now }
{
    if text == b"1ns".as_slice() {
        Some(Unit::Ns)
    } else if text == b"10ns".as_slice() {
        Some(Unit::TenNs)
    } else if text == b"100ns".as_slice() {
        Some(Unit::HundredNs)
    } else if text == b"1us".as_slice() {
        Some(Unit::Us)
    } else if text == b"10us".as_slice() {
        Some(Unit::TenUs)
    } else {
        None
    }
}

/// The unit of a count and its measure.
pub(crate) fn unit_with(count: Count, text: &[u8]) -> Option<Unit>
    ensures { result ≡ unit_with count text.now }
{
    let is_ns = text == b"ns".as_slice();
    let is_us = text == b"us".as_slice();
    match count {
        Count::One if is_ns => Some(Unit::Ns),
        Count::Ten if is_ns => Some(Unit::TenNs),
        Count::Hundred if is_ns => Some(Unit::HundredNs),
        Count::One if is_us => Some(Unit::Us),
        Count::Ten if is_us => Some(Unit::TenUs),
        _ => None,
    }
}
