//! The key matrix.

ghost use Rattle.std.specs.Prelude.{◌≡◌, ◌<◌, slice_set};
ghost use Rattle.board_terms.specs.Columns.{column_keys, keys_in};
ghost use Rattle.board_terms.specs.Matrix.{all_up, rows_of, turned};

use crate::place::Place;
use std::marker::Model;

/// The key matrix: 12 columns of 8 rows, with a diode per key, so keys don't hide each other. A clause sees it as
/// whether the key at each place is down. Source: our own.
#[derive(Debug, Drop)]
pub struct Matrix {
    /// The rows of each column as the bus shows them: bit k is row k, 0 for down.
    columns: [u8; 12],
}

impl Model for Matrix {
    ghost use Rattle.std.specs.Prelude.{Bool, List};
    ghost use Rattle.board_terms.specs.Columns.{keys_in};

    ghost Value = { List Bool };

    ghost view = { λ m. keys_in m.columns };
}

impl Matrix {
    /// The matrix with all keys up.
    pub fn new() -> Matrix
        ensures keys { result ≡ all_up }
    {
        Matrix {
            columns: [0xff; 12],
        }
    }

    /// The key at a place goes down, or up. The others stay.
    pub fn edge(&mut self, place: Place, down: bool)
        ensures keys { self.new ≡ turned place down self.old }
    {
        let column = (place.number() / 8) as usize;
        self.columns[column] = turn_row(self.columns[column], place.number() % 8, down);
    }

    /// The matrix whose columns read so.
    pub fn of_columns(columns: [u8; 12]) -> Matrix
        ensures keys { result ≡ keys_in columns }
    {
        Matrix { columns }
    }

    /// The rows of each column, as the bus reads them.
    pub fn columns(&self) -> [u8; 12]
        ensures keys { keys_in result ≡ self.now }
    {
        self.columns
    }

    /// A matrix of its own in which the same keys are down.
    pub fn copied(&self) -> Matrix
        ensures keys { result ≡ self.now }
    {
        Matrix {
            columns: self.columns,
        }
    }

    /// The rows that the bus reads: bit k is row k of the column that the low nibble of `p1` selects, 0 for down. The
    /// nibbles 12 to 15 select no column and read FF.
    pub fn rows(&self, p1: u8) -> u8
        ensures rows { result ≡ rows_of self.now p1 }
    {
        let column = (p1 % 16) as usize;
        if column < 12 {
            shown(self.columns[column])
        } else {
            0xff
        }
    }
}

/// The rows of a column, once the key in this row has gone down or up.
fn turn_row(rows: u8, row: u8, down: bool) -> u8
    requires { row < 8 }
    ensures { column_keys result ≡ slice_set (column_keys rows) row down }
{
    if down {
        rows & !(1 << row)
    } else {
        rows | 1 << row
    }
}

/// The rows of a column as the bus reads them, which is how they are kept: a byte.
fn shown(rows: u8) -> u8
    ensures rows { result ≡ rows }
    ensures byte { result < 256 }
{
    rows
}
