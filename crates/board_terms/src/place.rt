//! The places of the matrix.

ghost use Rattle.std.specs.Prelude.{◌≡◌, ◌<◌};
ghost use Rattle.board_terms.specs.Places.{place_at, place_numbered};

use std::marker::Model;

/// A place of the key matrix. A clause sees it as its number, which is below 96.
#[derive(Clone, Copy, Debug, PartialEq, Eq, PartialOrd, Ord, Default)]
pub struct Place {
    number: u8,
}

impl Model for Place {
    ghost use Rattle.std.specs.Prelude.{ℕ, ◌<◌};

    ghost Value = { ℕ };

    ghost view = { λ place. place.number };

    ghost invariant = { λ place. place.number < 96 };

    ghost inverse = { λ number. record { number = number } };
}

impl Place {
    /// The place in this column (0 to 11) and row (0 to 7); None exactly if one of them is out of range.
    pub fn at(column: u8, row: u8) -> Option<Place>
        ensures place { result ≡ place_at column row }
    {
        if column < 12 && row < 8 {
            Some(Place {
                number: 8 * column + row,
            })
        } else {
            None
        }
    }

    /// The place of this number, which is eight times its column and its row; None exactly if it is 96 or more.
    pub fn numbered(number: u8) -> Option<Place>
        ensures place { result ≡ place_numbered number }
    {
        if number < 96 {
            Some(Place { number })
        } else {
            None
        }
    }

    /// The place's number, which is eight times its column and its row.
    pub fn number(&self) -> u8
        ensures number { result ≡ self.now }
        ensures range { result < 96 }
    {
        self.number
    }
}
