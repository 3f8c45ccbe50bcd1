//! How many strokes of keys `sample` makes.

ghost use Rattle.std.specs.Prelude.{◌≡◌, ◌≤◌, ◌&&◌, nat_lt, nat_le, None, Some, if◌then◌else◌};

use std::marker::Model;

/// The most strokes.
const MOST_STROKES: u32 = 10_000;

/// A number of strokes, from 1 to 10,000. A clause sees the number.
#[derive(Debug, Drop)]
pub struct Strokes {
    count: u32,
}

impl Model for Strokes {
    ghost use Rattle.std.specs.Prelude.{ℕ, ◌≤◌};

    ghost Value = { ℕ };

    ghost view = { λ s. s.count };

    ghost invariant = { λ s. s.count ≤ 10000 };

    ghost inverse = { λ count. record { count = count } };
}

impl Strokes {
    /// So many strokes; none if they are less than 1 or more than 10,000.
    pub fn new(count: u32) -> Option<Strokes>
        ensures strokes { result ≡ (if nat_lt 0 count && nat_le count 10000 then Some count else None) }
    {
        if count > 0 && count <= MOST_STROKES {
            Some(Strokes { count })
        } else {
            None
        }
    }

    /// The number of strokes.
    pub fn count(&self) -> u32
        ensures count { result ≡ self.now }
        ensures most { result ≤ 10000 }
    {
        self.count
    }
}
