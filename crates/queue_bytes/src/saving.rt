//! The bytes of a saved queue.

ghost use Rattle.std.specs.Prelude.{◌≡◌, ◌≤◌, ◌<◌, ◌+◌, ◌*◌, ◌^◌, ◌++◌, All, length, map};
ghost use Rattle.arrayvec.specs.ArrayVec.{array_vec_len};
ghost use Rattle.board_terms.specs.Columns.{keys_in};
ghost use Rattle.edge_queue.specs.Calls.{edge_of};
ghost use Rattle.edge_queue.specs.Queue.{queue_of};
ghost use Rattle.joint_bytes.specs.Lists.{edge_bytes, edges_bytes};
ghost use Rattle.joint_saved.specs.Saved.{columns_of};
ghost use Rattle.queue_bytes.specs.Saved.{head_bytes, loaded, loaded_again, saved_bytes};

use crate::keys::columns;
use arrayvec::ArrayVec;
use edge_queue::{EdgeQueue, Pushed};
use hex_text::append;

/// How many bytes a saved queue has.
pub const SAVED_QUEUE: usize = 1629;

/// What a saved queue begins with: its name, and the version.
const HEADER: [u8; 8] = [0x4b, 0x42, 0x44, 0x34, 0x38, 0x51, 0x55, 1];

/// The bytes so far.
type Bytes = ArrayVec<u8, 1629>;

/// The edges that wait, in the order in which they were pushed.
fn waiting(queue: &EdgeQueue) -> &[Pushed]
    ensures edges { result.now ≡ (queue_of queue.now).waiting }
    ensures few { length result.now ≤ 160 }
{
    &queue.edges[..queue.waiting()]
}

/// The bytes of an edge.
fn edge_bytes(edge: &Pushed) -> [u8; 10]
    ensures bytes { result ≡ edge_bytes (edge_of edge.now) }
    ensures stamp { edge.now.stamp < 2 ^ 64 }
{
    let [a, b, c, d, e, f, g, h] = edge.stamp.to_le_bytes();
    [a, b, c, d, e, f, g, h, edge.place, u8::from(edge.down)]
}

/// Appends 160 places for edges, of which the first have these.
fn push_edges(bytes: &mut Bytes, edges: &[Pushed])
    requires room { array_vec_len bytes.old ≡ 29 }
    requires few { length edges.now ≤ 160 }
    ensures bytes { bytes.new.items ≡ bytes.old.items ++ edges_bytes 160 (map edge_of edges.now) }
    ensures count { array_vec_len bytes.new ≡ 1629 }
    ensures stamps { All (λ e. e.stamp < 2 ^ 64) edges.now }
{
    for edge in edges {
        append(bytes, &edge_bytes(edge));
    }
    append(bytes, &[0; 1600][10 * edges.len()..]);
}

/// The name, the version, the stamp, how many edges wait, and the columns, which are read as these keys.
fn head(queue: &EdgeQueue) -> Bytes
    ensures bytes { result.items ≡ head_bytes (queue_of queue.now) }
    ensures count { array_vec_len result ≡ 29 }
    ensures ready { (queue_of queue.now).ready < 2 ^ 64 }
    ensures keys { keys_in (columns_of (queue_of queue.now).down) ≡ (queue_of queue.now).down }
{
    let mut bytes = ArrayVec::new();
    append(&mut bytes, &HEADER);
    append(&mut bytes, &queue.ready.to_le_bytes());
    append(&mut bytes, &[queue.waiting() as u8]);
    append(&mut bytes, &columns(queue));
    bytes
}

/// The bytes of a queue: the stamp from which on the next edge may be handed over, how many edges wait, the keys that are
/// down after them, and these edges. They are loaded as this queue, or refused if an edge is at no place of the matrix.
pub fn save(queue: &EdgeQueue) -> ArrayVec<u8, 1629>
    ensures bytes { result.items ≡ saved_bytes (queue_of queue.now) }
    ensures count { length result.items ≡ 1629 }
    ensures loaded { loaded result.items ≡ loaded_again (queue_of queue.now) }
{
    let mut bytes = head(queue);
    push_edges(&mut bytes, waiting(queue));
    bytes
}
