//! What the rules ask of the events so far.

ghost use Rattle.std.specs.Prelude.{◌≡◌, ◌∷◌, [], None, Some, slice_index_or};
ghost use Rattle.first_fault.specs.FirstFault.{first_broken};
ghost use Rattle.key_file.specs.Histories.{Before, at_first, with_event};
ghost use Rattle.key_file.specs.Keeps.{IsBriefOf, asked};
ghost use Rattle.key_file.specs.Rules.{fourth_back, judgements};
ghost use Rattle.key_file.specs.declared.event.Event.TheVariants.{EdgeOf};

use crate::event::Event;
use board_terms::{Edge, Place};

/// The places of the matrix.
const PLACES: usize = 96;

/// What the rules ask of the events so far, in the same memory however many they are: the last edge of each key, by its
/// place, the last four edges, the number of edges and of the host's events, and the stamps of the last event and of
/// the end, in cycles.
#[derive(Drop)]
pub(crate) struct Brief {
    last: [Option<Edge>; PLACES],
    latest: [Option<Edge>; 4],
    count: usize,
    stamp: u64,
    end: Option<u64>,
}

/// The last four edges, the earliest first, with one edge more.
fn followed(latest: &[Option<Edge>; 4], edge: Edge) -> [Option<Edge>; 4]
    ensures { result ≡ slice_index_or latest.now 1 None ∷ slice_index_or latest.now 2 None ∷ slice_index_or latest.now 3 None ∷ Some edge ∷ [] }
{
    [latest[1], latest[2], latest[3], Some(edge)]
}

impl Brief {
    /// Before the first event.
    pub(crate) fn new() -> Brief
        ensures { IsBriefOf at_first result }
    {
        Brief {
            last: [None; PLACES],
            latest: [None; 4],
            count: 0,
            stamp: 0,
            end: None,
        }
    }

    /// The last edge of the key at a place.
    pub(crate) fn last_edge(&self, place: Place) -> Option<Edge>
        ensures { result ≡ (asked self.now).last place }
    {
        self.last[usize::from(place.number())]
    }

    /// The fourth edge from the end.
    pub(crate) fn fourth_back(&self) -> Option<Edge>
        ensures { result ≡ fourth_back (asked self.now) }
    {
        self.latest[0]
    }

    /// The number of edges and of the host's events.
    pub(crate) fn count(&self) -> usize
        ensures { result ≡ self.now.count }
    {
        self.count
    }

    /// The stamp of the last event, in cycles; 0 before the first one.
    pub(crate) fn stamp(&self) -> u64
        ensures { result ≡ self.now.stamp }
    {
        self.stamp
    }

    /// The stamp of the end, if that has come.
    pub(crate) fn end(&self) -> Option<u64>
        ensures { result ≡ self.now.end }
    {
        self.end
    }

    /// Takes an edge that breaks no rule.
    fn push_edge(&mut self, edge: Edge)
        requires unbroken { first_broken (judgements (asked self.old) (EdgeOf edge)) ≡ None }
        ensures brief { (before : Before) → IsBriefOf before self.old → IsBriefOf (with_event before (EdgeOf edge)) self.new }
    {
        self.last[usize::from(edge.place.number())] = Some(edge);
        self.latest = followed(&self.latest, edge);
        self.count += 1;
        self.stamp = edge.stamp;
    }

    /// Takes an event that breaks no rule.
    pub(crate) fn push(&mut self, event: &Event)
        requires unbroken { first_broken (judgements (asked self.old) event.now) ≡ None }
        ensures brief { (before : Before) → IsBriefOf before self.old → IsBriefOf (with_event before event.now) self.new }
    {
        match event {
            Event::EdgeOf(edge) => self.push_edge(*edge),
            Event::HostOf(event) => {
                self.count += 1;
                self.stamp = event.stamp;
            }
            Event::End(stamp) => {
                self.stamp = *stamp;
                self.end = Some(*stamp);
            }
        }
    }
}
