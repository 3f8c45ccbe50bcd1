//! The keys' switches over a run: which of the edges that a reading shows the keyboard takes.

use board_terms::Place;
use std::alloc::{AllocError, Global};
use std::marker::Model;

/// The places of the matrix.
const PLACES: u8 = 96;

/// By place, whether the key was down when the columns were read last, and whether it is taken to be down. A clause sees
/// it as `Switches`.
#[derive(Drop)]
pub(crate) struct Debouncing {
    read: [bool; 96],
    settled: [bool; 96],
}

impl Model for Debouncing {
    ghost use Rattle.model_link.specs.Debounce.{Switches};

    ghost Value = { Switches };

    ghost view = { λ d. record { read = d.read; settled = d.settled } };
}

impl Debouncing {
    ghost use Rattle.std.specs.Prelude.{◌≡◌, IfOk};
    ghost use Rattle.model_link.specs.Debounce.{all_open, taken, switched};

    /// Before any reading: all keys are up.
    pub(crate) fn new() -> Debouncing
        ensures { result ≡ all_open }
    {
        Debouncing {
            read: [false; 96],
            settled: [false; 96],
        }
    }

    /// Of the edges that a reading shows those that the keyboard takes: all of them, or with a debounce those of the keys
    /// that this reading and the last agree on.
    pub(crate) fn follow(
        &mut self,
        alloc: Global,
        changes: &[(Place, bool)],
        debounce: bool,
    ) -> Result<Vec<(Place, bool)>, AllocError>
        ensures edges { IfOk result (λ edges. edges.items ≡ taken debounce changes.now self.old) }
        ensures switches { IfOk result (λ edges. self.new ≡ switched debounce changes.now self.old) }
    {
        let before = self.read;
        turn_all(&mut self.read, changes);
        let edges = if debounce {
            settling(alloc, &self.settled, &before, &self.read)?
        } else {
            copied(alloc, changes)?
        };
        turn_all(&mut self.settled, edges.as_slice());
        Ok(edges)
    }
}

ghost use Rattle.std.specs.Prelude.{◌≡◌, ◌<◌, ◌++◌, IfOk};
ghost use Rattle.model_link.specs.Debounce.{is_down_at, settles as settles_by, turned_all};
ghost use Rattle.model_link.specs.TickEdges.{change_at, shown};

/// The keys turn by edges, one after the other.
fn turn_all(keys: &mut [bool; 96], edges: &[(Place, bool)])
    ensures { keys.new ≡ turned_all edges.now keys.old }
{
    for (place, down) in edges {
        keys[usize::from(place.number())] = *down;
    }
}

/// The same edges.
fn copied(alloc: Global, edges: &[(Place, bool)]) -> Result<Vec<(Place, bool)>, AllocError>
    ensures { IfOk result (λ copy. copy.items ≡ edges.now) }
{
    let mut copy = Vec::new(alloc);
    for (place, down) in edges {
        copy.push((*place, *down))?;
    }
    Ok(copy)
}

/// Whether a key that two readings showed so is down, if it was.
fn settles(was: bool, before: bool, now: bool) -> bool
    ensures { result ≡ settles_by was before now }
{
    if before == now { now } else { was }
}

/// The edges of the keys that two readings agree on, by rising place.
fn settling(
    alloc: Global,
    was: &[bool; 96],
    before: &[bool; 96],
    now: &[bool; 96],
) -> Result<Vec<(Place, bool)>, AllocError>
    ensures { IfOk result (λ edges. edges.items ≡ shown (is_down_at was.now)
        (λ p. settles_by (is_down_at was.now p) (is_down_at before.now p) (is_down_at now.now p))) }
{
    let mut edges = Vec::new(alloc);
    for number in 0..PLACES {
        let key = usize::from(number);
        let down = settles(was[key], before[key], now[key]);
        push_change(&mut edges, number, was[key], down)?;
    }
    Ok(edges)
}

/// Puts the edge of a place after the others, if its key changes.
fn push_change(
    edges: &mut Vec<(Place, bool)>,
    number: u8,
    was: bool,
    down: bool,
) -> Result<(), AllocError>
    requires { number < 96 }
    ensures { IfOk result (λ u. edges.new.items ≡ edges.old.items ++ change_at number was down) }
{
    if was != down {
        let place = Place::numbered(number).unwrap();
        edges.push((place, down))?;
    }
    Ok(())
}
