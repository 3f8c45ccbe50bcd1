//! From the bytes of a key file to its history, or to its first fault.

ghost use Rattle.std.specs.Prelude.{◌≡◌, ◌≤◌, Ok, length, IfOk, IfErr, IsOk};
ghost use Rattle.key_file.specs.Accepted.{IsAccepted, IsAcceptedFor};
ghost use Rattle.key_file.specs.Feeds.{Fed};
ghost use Rattle.key_file.specs.declared.fault.KeyFault.TheVariants.{Memory};
ghost use Rattle.key_file.specs.KeyFile.{history_of, IsFaultOf};

use crate::byte_feed::ByteFeed;
use crate::checking::check_history;
use crate::fault::{KeyFault, key_fault};
use crate::feed::Feed;
use crate::history::History;
use board_terms::{Edge, HostEvent};
use layout_reader::Layout;
use std::alloc::{AllocError, Global};

/// The edges of a feed of which none was taken.
fn edges_of(alloc: Global, feed: &mut ByteFeed) -> Result<Vec<Edge>, AllocError>
    requires { feed.old.edges ≡ 0 }
    ensures edges { IfOk result (λ edges. edges.items ≡ feed.old.history.edges) }
    ensures history { feed.new.history ≡ feed.old.history }
    ensures host { feed.new.host ≡ feed.old.host }
{
    let mut edges = Vec::new(alloc);
    while let Some(edge) = feed.next_edge() {
        edges.push(edge)?;
    }
    Ok(edges)
}

/// The host events of a feed of which none was taken.
fn host_of(alloc: Global, feed: &mut ByteFeed) -> Result<Vec<HostEvent>, AllocError>
    requires { feed.old.host ≡ 0 }
    ensures events { IfOk result (λ events. events.items ≡ feed.old.history.host) }
    ensures history { feed.new.history ≡ feed.old.history }
{
    let mut events = Vec::new(alloc);
    while let Some(event) = feed.next_host() {
        events.push(event)?;
    }
    Ok(events)
}

/// Reads a key file of at most 4,194,304 bytes for a layout.
///
/// Ok is exactly the file's history, and it is accepted for the layout. `KeyFault::Input` and `KeyFault::Timing` are
/// exactly the first faulty line with the lowest number of a rule that it breaks: each line is judged after those
/// before it. Want of memory comes only if the file has no fault.
pub fn read_history(alloc: Global, bytes: &[u8], layout: &Layout) -> Result<History, KeyFault>
    requires within { length bytes.now ≤ 4194304 }
    ensures history { IfOk result (λ history. history_of layout.now bytes.now ≡ Ok history) }
    ensures accepted { IfOk result (IsAcceptedFor layout.now) }
    ensures fault { IfErr result (IsFaultOf (history_of layout.now bytes.now)) }
    ensures memory { IfErr result (λ fault. fault ≡ Memory → IsOk (history_of layout.now bytes.now)) }
{
    let mut feed = check_history(bytes, layout).map_err(key_fault)?;
    let edges = edges_of(alloc, &mut feed)?;
    let host = host_of(alloc, &mut feed)?;
    Ok(History::new(edges, host, feed.end()))
}
