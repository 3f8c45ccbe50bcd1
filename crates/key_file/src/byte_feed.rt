//! The feed of a key file's own bytes, read line by line as its events are asked for.

ghost use Rattle.std.specs.Prelude.{◌≡◌, ◌∷◌, [], Ok, MatchOption};
ghost use Rattle.std.specs.List.{slice_get};
ghost use Rattle.std.specs.Str.Lines.{lines};
ghost use Rattle.text_lines.specs.Fields.{fields};
ghost use Rattle.key_file.specs.Accepted.{IsAccepted};
ghost use Rattle.key_file.specs.Cursors.{edges_in, history_in, host_in, said_in};
ghost use Rattle.key_file.specs.Feeds.{edge_taken, host_taken};
ghost use Rattle.key_file.specs.Histories.{KeyHistory};
ghost use Rattle.key_file.specs.KeyFile.{history_of};
ghost use Rattle.key_file.specs.declared.event.Event.TheVariants.{EdgeOf, HostOf};

use crate::event::Event;
use crate::feed::Feed;
use crate::line::said_by;
use board_terms::{Edge, HostEvent};
use layout_reader::Layout;
use std::marker::Model;
use text_lines::next_line;

/// A key file that has a history, and a cursor each for its edges and for its host events: the text after the last
/// line that was taken, and how many were taken.
#[derive(Drop)]
pub struct ByteFeed<'a> {
    bytes: &'a [u8],
    layout: &'a Layout,
    end: u64,
    edges_text: &'a [u8],
    host_text: &'a [u8],
    edges: usize,
    host: usize,
}

impl<'a> Model for ByteFeed<'a> {
    ghost use Rattle.key_file.specs.Cursors.{history_in};
    ghost use Rattle.key_file.specs.Feeds.{Fed};
    ghost use Rattle.key_file.specs.Places.{AreCursors};

    ghost Value = { Fed };

    ghost view = { λ f. record { history = history_in f.layout.now f.bytes.now; edges = f.edges; host = f.host } };

    ghost invariant = { λ f. AreCursors f.layout.now f.bytes.now f.edges_text.now f.host_text.now f.edges f.host f.end };
}

/// What a line says that breaks no rule of form, word or key, if anything.
fn said_in(layout: &Layout, line: &[u8]) -> Option<Event>
    ensures { result ≡ said_in layout.now line.now }
{
    said_by(layout, line).ok().flatten()
}

/// The first edge that the lines of a text give, and the text of the lines after it; None if they give none.
fn first_edge<'a>(layout: &Layout, text: &'a [u8]) -> Option<(Edge, &'a [u8])>
    ensures { MatchOption result (edges_in layout.now (lines text.now) ≡ [])
        (λ first. edges_in layout.now (lines text.now) ≡ first.0 ∷ edges_in layout.now (lines first.1.now)) }
{
    let mut rest = text;
    while let Some((line, after)) = next_line(rest) {
        if let Some(Event::EdgeOf(edge)) = said_in(layout, line) {
            return Some((edge, after));
        }
        rest = after;
    }
    None
}

/// The first event of the host that the lines of a text give, and the text of the lines after it; None if they give
/// none.
fn first_host<'a>(layout: &Layout, text: &'a [u8]) -> Option<(HostEvent, &'a [u8])>
    ensures { MatchOption result (host_in layout.now (lines text.now) ≡ [])
        (λ first. host_in layout.now (lines text.now) ≡ first.0 ∷ host_in layout.now (lines first.1.now)) }
{
    let mut rest = text;
    while let Some((line, after)) = next_line(rest) {
        if let Some(Event::HostOf(event)) = said_in(layout, line) {
            return Some((event, after));
        }
        rest = after;
    }
    None
}

impl<'a> ByteFeed<'a> {
    /// All events of a key file are to come, which has a history that ends at this stamp.
    pub(crate) fn at_start(bytes: &'a [u8], layout: &'a Layout, end: u64) -> ByteFeed<'a>
        requires history { history_of layout.now bytes.now ≡ Ok (history_in layout.now bytes.now) }
        requires accepted { IsAccepted (history_in layout.now bytes.now) }
        requires end { end ≡ (history_in layout.now bytes.now).end }
        ensures { result ≡ record { history = history_in layout.now bytes.now; edges = 0; host = 0 } }
    {
        ByteFeed {
            bytes,
            layout,
            end,
            edges_text: bytes,
            host_text: bytes,
            edges: 0,
            host: 0,
        }
    }
}

impl<'a> Feed for ByteFeed<'a> {
    ghost feeds = { λ f. f };

    fn end(&self) -> u64
        ensures end { result ≡ self.now.history.end }
        ensures accepted { IsAccepted self.now.history }
    {
        self.end
    }

    fn next_edge(&mut self) -> Option<Edge>
        ensures edge { result ≡ slice_get self.old.history.edges self.old.edges }
        ensures taken { self.new ≡ edge_taken result self.old }
    {
        match first_edge(self.layout, self.edges_text) {
            None => None,
            Some((edge, after)) => {
                self.edges_text = after;
                self.edges += 1;
                Some(edge)
            }
        }
    }

    fn next_host(&mut self) -> Option<HostEvent>
        ensures event { result ≡ slice_get self.old.history.host self.old.host }
        ensures taken { self.new ≡ host_taken result self.old }
    {
        match first_host(self.layout, self.host_text) {
            None => None,
            Some((event, after)) => {
                self.host_text = after;
                self.host += 1;
                Some(event)
            }
        }
    }
}
