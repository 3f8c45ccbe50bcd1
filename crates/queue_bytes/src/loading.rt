//! The queue that saved bytes mean.

ghost use Rattle.std.specs.Prelude.{◌≡◌, ◌≤◌, ◌==◌, ◌%◌, ◌^◌, ◌+◌, ◌*◌, ◌++◌, length, map, nat_le, slice_index, slice_range, take, true, Ok, Err, OnOk, IfOk, IfErr};
ghost use Rattle.arrayvec.specs.ArrayVec.{array_vec_len};
ghost use Rattle.edge_queue.specs.Queue.{queue_of};
ghost use Rattle.joint_bytes.specs.Lists.{edge_in, edges_in, have_places};
ghost use Rattle.mcs48_bytes.specs.Numbers.{number_at};
ghost use Rattle.queue_bytes.specs.Saved.{checked, have_ways, loaded, magic, pushed_of, queue_in};

use crate::keys::keys_in;
use crate::no_queue::NoQueue;
use crate::saving::SAVED_QUEUE;
use arrayvec::ArrayVec;
use edge_queue::{EdgeQueue, Pushed};
use joint_bytes::have_places;
use mcs48_bytes::{number_at, truth_at};

/// KBD48QU as a number of 7 bytes.
const MAGIC: u64 = 0x55_5138_3444_424b;

/// Whether there are as many bytes as a saved queue has.
fn is_whole(bytes: &[u8]) -> bool
    ensures whole { result ≡ (length bytes.now == 1629) }
    ensures count { result ≡ true → length bytes.now ≡ 1629 }
{
    bytes.len() == SAVED_QUEUE
}

/// Whether the first of these edges go down or up: their last byte is 1 or 0.
fn have_ways(bytes: &[u8], count: usize) -> bool
    requires { 10 * count ≤ length bytes.now }
    ensures { result ≡ have_ways count bytes.now }
{
    count == 0 || bytes[9] < 2 && have_ways(&bytes[10..], count - 1)
}

/// Whether bytes of the right length begin as those of a saved queue.
fn has_name(bytes: &[u8]) -> bool
    requires { length bytes.now ≡ 1629 }
    ensures { result ≡ (number_at 0 bytes.now % 2 ^ 56 == magic) }
{
    number_at(bytes, 0) % (1 << 56) == MAGIC
}

/// Whether they are of this version.
fn is_version_1(bytes: &[u8]) -> bool
    requires { length bytes.now ≡ 1629 }
    ensures { result ≡ (slice_index bytes.now 7 == 1) }
{
    bytes[7] == 1
}

/// Whether no more edges wait than can.
fn count_fits(bytes: &[u8]) -> bool
    requires { length bytes.now ≡ 1629 }
    ensures fits { result ≡ nat_le (slice_index bytes.now 16) 160 }
    ensures few { result ≡ true → slice_index bytes.now 16 ≤ 160 }
{
    bytes[16] <= 160
}

/// Whether the edges that wait are at places of the matrix.
fn edges_have_places(bytes: &[u8]) -> bool
    requires count { length bytes.now ≡ 1629 }
    requires few { slice_index bytes.now 16 ≤ 160 }
    ensures { result ≡ have_places (slice_index bytes.now 16) (slice_range bytes.now 29 1629) }
{
    have_places(&bytes[29..1629], bytes[16] as usize)
}

/// Whether the edges that wait go down or up.
fn edges_have_ways(bytes: &[u8]) -> bool
    requires count { length bytes.now ≡ 1629 }
    requires few { slice_index bytes.now 16 ≤ 160 }
    ensures { result ≡ have_ways (slice_index bytes.now 16) (slice_range bytes.now 29 1629) }
{
    have_ways(&bytes[29..1629], bytes[16] as usize)
}

/// What the bytes lack first, if they lack anything: length, name, version, count, and the places and ways of the edges.
fn check(bytes: &[u8]) -> Result<(), NoQueue>
    ensures checked { result ≡ checked bytes.now }
    ensures count { OnOk result (length bytes.now ≡ 1629) }
    ensures few { OnOk result (slice_index bytes.now 16 ≤ 160) }
{
    if !is_whole(bytes) {
        return Err(NoQueue::Length);
    }
    if !has_name(bytes) {
        return Err(NoQueue::Format);
    }
    if !is_version_1(bytes) {
        return Err(NoQueue::Version);
    }
    if !count_fits(bytes) {
        return Err(NoQueue::Count);
    }
    if !edges_have_places(bytes) {
        return Err(NoQueue::Place);
    }
    if !edges_have_ways(bytes) {
        return Err(NoQueue::Way);
    }
    Ok(())
}

/// The edge that these bytes mean.
fn edge_in(bytes: &[u8]) -> Pushed
    requires { 10 ≤ length bytes.now }
    ensures { result ≡ pushed_of (edge_in bytes.now) }
{
    Pushed {
        stamp: number_at(bytes, 0),
        place: bytes[8],
        down: truth_at(bytes, 9),
    }
}

/// The first of these edges; any edges after them.
fn edges_in(bytes: &[u8], count: usize) -> [Pushed; 160]
    requires few { count ≤ 160 }
    requires bytes { length bytes.now ≡ 1600 }
    ensures { take count result ≡ map pushed_of (edges_in count bytes.now) }
{
    let mut edges = [Pushed::default(); 160];
    let mut done = 0;
    'edges: while done < count {
        edges[done] = edge_in(&bytes[10 * done..]);
        done += 1;
    }
    edges
}

/// The queue of bytes that were checked.
fn queue_in(bytes: &[u8]) -> EdgeQueue
    requires count { length bytes.now ≡ 1629 }
    requires few { slice_index bytes.now 16 ≤ 160 }
    ensures { queue_of result ≡ queue_in bytes.now }
{
    let count = bytes[16];
    EdgeQueue {
        ready: number_at(bytes, 8),
        edges: edges_in(&bytes[29..1629], count as usize),
        down: keys_in(&bytes[17..29]),
        count,
    }
}

/// The queue that these bytes mean. They are refused by the first thing that they lack.
pub fn load(bytes: &[u8]) -> Result<EdgeQueue, NoQueue>
    ensures loaded { IfOk result (λ queue. loaded bytes.now ≡ Ok (queue_of queue)) }
    ensures refused { IfErr result (λ fault. loaded bytes.now ≡ Err fault) }
{
    check(bytes)?;
    Ok(queue_in(bytes))
}
