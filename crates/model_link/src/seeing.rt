//! The edges that a tick sees.

ghost use Rattle.std.specs.Prelude.{◌≡◌, ℕ, ◌<◌, ◌≤◌, ◌++◌, ◌^◌, ◌==◌, ◌&&◌, [], ◌∷◌, true, false, nat_le};
ghost use Rattle.std.specs.Prelude.{length, map, slice_index_or, IfOk, if◌then◌else◌};
ghost use Rattle.std.specs.List.{filter};
ghost use Rattle.std.specs.List.Sorted.{IsPartitionPoint};
ghost use Rattle.std.specs.Option.{ForSome};
ghost use Rattle.board_terms.specs.declared.event.Edge.{Edge as EdgeOf};
ghost use Rattle.board_terms.specs.Edges.{of_place, AreInOrder};
ghost use Rattle.board_terms.specs.Cadence.{KeepsCadenceTo, listed};
ghost use Rattle.model_link.specs.TickEdges.{by_place, change_of, tick_edges as tick_edges_of};
ghost use Rattle.model_link.specs.Seeing.{start_before as start_before_of, is_read_from as is_read_from_start};
ghost use Rattle.model_link.specs.Seeing.{sees as sees_edge, HasSeen};

use board_terms::{Edge, Place};
use std::alloc::{AllocError, Global};

/// The places of the matrix.
const PLACES: u8 = 96;

/// The offset at which a tick reads its first column.
const FIRST_READ: u64 = 16;

/// The offset at which it reads its last.
const LAST_READ: u64 = 192;

/// The edges that tick n sees, by rising place, each with its place and whether its key went down.
pub(crate) fn tick_edges(
    alloc: Global,
    edges: &[Edge],
    starts: &[u64],
    n: usize,
) -> Result<Vec<(Place, bool)>, AllocError>
    requires order { AreInOrder edges.now }
    requires within { n < length starts.now }
    requires near { n < 2 ^ 32 }
    requires cadence { KeepsCadenceTo (listed starts.now) n }
    ensures { IfOk result (λ seen. seen.items ≡ tick_edges_of (listed starts.now) edges.now n) }
{
    let before = start_before(starts, n);
    let now = starts[n];
    let seen = seen_among(alloc, window(edges, before, now), before, now)?;
    Ok(seen)
}

/// The start of the tick before, if there is one.
fn start_before(starts: &[u64], n: usize) -> Option<u64>
    requires within { n < length starts.now }
    ensures { result ≡ start_before_of (listed starts.now) n }
{
    match n {
        0 => None,
        _ => Some(starts[n - 1]),
    }
}

/// How many edges have a stamp up to this one.
fn count_up_to(edges: &[Edge], stamp: u64) -> usize
    requires { AreInOrder edges.now }
    ensures bound { result ≤ length edges.now }
    ensures point { IsPartitionPoint (λ e. nat_le e.stamp stamp ≡ true) (λ e. nat_le e.stamp stamp ≡ false) edges.now result }
{
    edges.partition_point(
        |edge: &Edge| -> bool
            ensures { result ≡ nat_le edge.now.stamp stamp }
        { edge.stamp <= stamp },
    )
}

/// Those of the edges that a tick may see, by its start and that of the tick before.
fn window(edges: &[Edge], before: Option<u64>, now: u64) -> &[Edge]
    requires order { AreInOrder edges.now }
    requires near { now < 2 ^ 62 }
    requires before_near { ForSome before (λ start. start < 2 ^ 62) }
    ensures { HasSeen before now result.now edges.now }
{
    let end = count_up_to(edges, now + LAST_READ);
    let first = first_left(edges, before, end);
    &edges[first..end]
}

/// The first of the edges that a tick before may have left, but none past the end.
fn first_left(edges: &[Edge], before: Option<u64>, end: usize) -> usize
    requires order { AreInOrder edges.now }
    requires before_near { ForSome before (λ start. start < 2 ^ 62) }
    ensures bound { result ≤ end }
    ensures read { (k : ℕ) (d : EdgeOf) → k < result → is_read_from_start before (slice_index_or edges.now k d) ≡ true }
{
    match before {
        Some(start) => count_up_to(edges, start + FIRST_READ).min(end),
        None => 0,
    }
}

/// Those of the edges that a tick sees, by rising place.
fn seen_among(
    alloc: Global,
    edges: &[Edge],
    before: Option<u64>,
    now: u64,
) -> Result<Vec<(Place, bool)>, AllocError>
    requires near { now < 2 ^ 62 }
    requires before_near { ForSome before (λ start. start < 2 ^ 62) }
    ensures { IfOk result (λ seen. seen.items ≡ map change_of (by_place (λ p. filter (sees_edge before now) (of_place p edges.now)) 96)) }
{
    let mut seen = Vec::new(alloc);
    for place in 0..PLACES {
        push_seen(&mut seen, edges, place, before, now)?;
    }
    Ok(seen)
}

/// Puts the edges of one place that a tick sees after those of others.
fn push_seen(
    seen: &mut Vec<(Place, bool)>,
    edges: &[Edge],
    place: u8,
    before: Option<u64>,
    now: u64,
) -> Result<(), AllocError>
    requires near { now < 2 ^ 62 }
    requires before_near { ForSome before (λ start. start < 2 ^ 62) }
    ensures { IfOk result (λ u. seen.new.items ≡ seen.old.items ++ map change_of (filter (sees_edge before now) (of_place place edges.now))) }
{
    for edge in edges {
        push_if(seen, is_seen_at(edge, place, before, now), edge)?;
    }
    Ok(())
}

/// Puts an edge after the others, if it is wanted.
fn push_if(seen: &mut Vec<(Place, bool)>, wanted: bool, edge: &Edge) -> Result<(), AllocError>
    ensures { IfOk result (λ u. seen.new.items ≡ seen.old.items ++ (if wanted then change_of edge.now ∷ [] else [])) }
{
    if wanted {
        seen.push((edge.place, edge.down))?;
    }
    Ok(())
}

/// Whether an edge is of this place and a tick sees it.
fn is_seen_at(edge: &Edge, place: u8, before: Option<u64>, now: u64) -> bool
    requires near { now < 2 ^ 62 }
    requires before_near { ForSome before (λ start. start < 2 ^ 62) }
    ensures { result ≡ ((edge.now.place == place) && sees_edge before now edge.now) }
{
    edge.place.number() == place && sees(before, now, edge)
}

/// Whether a tick sees an edge, by its start and that of the tick before: it reads the edge's column in time, and that
/// one didn't.
fn sees(before: Option<u64>, now: u64, edge: &Edge) -> bool
    requires near { now < 2 ^ 62 }
    requires before_near { ForSome before (λ start. start < 2 ^ 62) }
    ensures { result ≡ sees_edge before now edge.now }
{
    is_read_from(Some(now), edge) && !is_read_from(before, edge)
}

/// Whether a tick that starts then reads the edge's column in time.
fn is_read_from(start: Option<u64>, edge: &Edge) -> bool
    requires { ForSome start (λ s. s < 2 ^ 62) }
    ensures { result ≡ is_read_from_start start edge.now }
{
    match start {
        Some(start) => edge.stamp <= start + FIRST_READ + 16 * u64::from(edge.place.number() / 8),
        None => false,
    }
}
