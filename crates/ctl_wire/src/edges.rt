//! The falling edges of a frame for the keyboard that have been so far.

ghost use Rattle.std.specs.Prelude.{◌≡◌, ◌+◌, ◌<◌, ◌≤◌, ◌==◌};

use std::marker::Model;

/// How many falling edges of a frame for the keyboard have been, at most ten of the eleven. A clause sees it as the
/// number.
#[derive(Clone, Copy, Debug, PartialEq, Eq)]
pub struct Edges {
    count: u8,
}

impl Model for Edges {
    ghost use Rattle.std.specs.Prelude.{ℕ, ◌≤◌};

    ghost Value = { ℕ };

    ghost view = { λ edges. edges.count };

    ghost invariant = { λ edges. edges.count ≤ 10 };

    ghost inverse = { λ count. record { count = count } };
}

impl Edges {
    /// The first edge has been.
    pub fn first() -> Edges
        ensures number { result ≡ 1 }
    {
        Edges { count: 1 }
    }

    /// So many edges have been.
    pub fn of(count: u8) -> Edges
        requires few { count ≤ 10 }
        ensures number { result ≡ count }
    {
        Edges { count }
    }

    /// Whether one edge alone is missing.
    pub fn lack_one(&self) -> bool
        ensures lack { result ≡ (self.now == 10) }
        ensures range { self.now ≤ 10 }
    {
        self.count == 10
    }

    /// One edge more has been, and it isn't the last.
    pub fn next(&self) -> Edges
        requires before_last { self.now < 10 }
        ensures number { result ≡ self.now + 1 }
    {
        Edges {
            count: self.count + 1,
        }
    }

    /// The number, at most ten.
    pub fn number(&self) -> usize
        ensures number { result ≡ self.now }
        ensures range { result ≤ 10 }
    {
        self.count as usize
    }
}
