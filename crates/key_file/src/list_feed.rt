//! The feed of a history in memory.

ghost use Rattle.std.specs.Prelude.{◌≡◌, ◌≤◌, length};
ghost use Rattle.std.specs.List.{slice_get};
ghost use Rattle.key_file.specs.Feeds.{edge_taken, host_taken};

use crate::feed::Feed;
use crate::history::History;
use board_terms::{Edge, HostEvent};
use std::marker::Model;

/// The events of a history in memory, and how many of them were taken.
#[derive(Drop)]
pub struct ListFeed<'a> {
    history: &'a History,
    edges: usize,
    host: usize,
}

impl<'a> Model for ListFeed<'a> {
    ghost use Rattle.std.specs.Prelude.{◌≤◌, length};
    ghost use Rattle.key_file.specs.Feeds.{Fed};

    ghost Value = { Fed };

    ghost view = { λ f. record { history = f.history.now; edges = f.edges; host = f.host } };

    ghost invariant = { λ f. (f.edges ≤ length f.history.now.edges) × (f.host ≤ length f.history.now.host) };
}

impl<'a> ListFeed<'a> {
    /// All events of a history are to come.
    pub fn new(history: &'a History) -> ListFeed<'a>
        ensures { result ≡ record { history = history.now; edges = 0; host = 0 } }
    {
        ListFeed {
            history,
            edges: 0,
            host: 0,
        }
    }

    /// So many of its edges and of its host events were taken.
    pub fn at(history: &'a History, edges: usize, host: usize) -> ListFeed<'a>
        requires edges { edges ≤ length history.now.edges }
        requires host { host ≤ length history.now.host }
        ensures { result ≡ record { history = history.now; edges = edges; host = host } }
    {
        ListFeed {
            history,
            edges,
            host,
        }
    }
}

impl<'a> Feed for ListFeed<'a> {
    ghost feeds = { λ f. f };

    fn end(&self) -> u64
        ensures end { result ≡ self.now.history.end }
    {
        self.history.end()
    }

    fn next_edge(&mut self) -> Option<Edge>
        ensures edge { result ≡ slice_get self.old.history.edges self.old.edges }
        ensures taken { self.new ≡ edge_taken result self.old }
    {
        let edge = self.history.edges().get(self.edges).copied()?;
        self.edges += 1;
        Some(edge)
    }

    fn next_host(&mut self) -> Option<HostEvent>
        ensures event { result ≡ slice_get self.old.history.host self.old.host }
        ensures taken { self.new ≡ host_taken result self.old }
    {
        let event = self.history.host().get(self.host).copied()?;
        self.host += 1;
        Some(event)
    }
}
