//! The keys that are down after the edges of a queue, as the rows of their columns, and back.

ghost use Rattle.std.specs.Prelude.{◌≡◌, ◌<◌, length};
ghost use Rattle.board_terms.specs.Columns.{column_keys, keys_in};
ghost use Rattle.edge_queue.specs.Queue.{queue_of};
ghost use Rattle.joint_saved.specs.Saved.{columns_of};

use arrayvec::ArrayVec;
use board_terms::{Matrix, Place};
use edge_queue::EdgeQueue;

/// How many places the matrix has.
const PLACES: u8 = 96;

/// The place of a number.
fn place_of(number: u8) -> Place
    requires { number < 96 }
    ensures { result ≡ number }
{
    Place::numbered(number).unwrap()
}

/// The matrix in which the same keys are down.
fn matrix(queue: &EdgeQueue) -> Matrix
    ensures keys { result ≡ (queue_of queue.now).down }
{
    let mut matrix = Matrix::new();
    let mut number = 0;
    'places: while number < PLACES {
        matrix.edge(place_of(number), queue.down[number as usize]);
        number += 1;
    }
    matrix
}

/// The rows of each column: bit k is row k, 0 for down. They are read as these keys.
pub(crate) fn columns(queue: &EdgeQueue) -> [u8; 12]
    ensures rows { result ≡ columns_of (queue_of queue.now).down }
    ensures read { keys_in (columns_of (queue_of queue.now).down) ≡ (queue_of queue.now).down }
{
    matrix(queue).columns()
}

/// Whether the key in each row of a column is down.
fn column_keys(rows: u8) -> [bool; 8]
    ensures { result ≡ column_keys rows }
{
    [
        rows & 1 != 1,
        rows >> 1 & 1 != 1,
        rows >> 2 & 1 != 1,
        rows >> 3 & 1 != 1,
        rows >> 4 & 1 != 1,
        rows >> 5 & 1 != 1,
        rows >> 6 & 1 != 1,
        rows >> 7 & 1 != 1,
    ]
}

/// Whether the key at each place is down, by the rows of the columns.
pub(crate) fn keys_in(columns: &[u8]) -> [bool; 96]
    requires { length columns.now ≡ 12 }
    ensures { result ≡ keys_in columns.now }
{
    let mut keys: ArrayVec<bool, 96> = ArrayVec::new();
    for rows in columns {
        let _ = keys.try_extend_from_slice(&column_keys(*rows));
    }
    let mut down = [false; 96];
    down.copy_from_slice(keys.as_slice());
    down
}
