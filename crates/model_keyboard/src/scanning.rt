//! What the keys do in a tick: the repeating, and the edges.

use crate::edge::TickEdge;
use crate::state::{Mode, Repeat, TickModel};
use crate::typematic::{delay, period};
use board_terms::Place;
use layout_reader::Layout;

impl TickModel {
    ghost use Rattle.std.specs.Prelude.{◌≡◌, IfSome, All};
    ghost use Rattle.std.specs.Option.{ForSome};
    ghost use Rattle.layout_reader.specs.Layouts.{HasEntry};
    ghost use Rattle.model_keyboard.specs.Codes.{keys_of, HasCode};
    ghost use Rattle.model_keyboard.specs.Tick.{is_scanning, repeated, ended_at, edge_if, edges_if, scanned};

    /// Steps 4 and 5 of a tick. Whether scanning is on is judged once, before them.
    pub(crate) fn scan(&mut self, inhibited: bool, edges: &[TickEdge], layout: &Layout)
        requires repeats { ForSome self.old.repeats (λ r. HasCode layout.now r.place) }
        requires edges { All (λ e. HasEntry layout.now e.place) edges.now }
        ensures scanned { self.new ≡ scanned (keys_of layout.now) inhibited edges.now self.old }
        ensures known { IfSome self.new.repeats (λ r. HasCode layout.now r.place) }
    {
        let scanning = self.is_scanning();
        if scanning {
            self.repeat(inhibited, layout);
        } else {
            self.repeats = None;
        }
        self.see_edges(scanning, edges, layout);
    }

    /// Scanning is on if it is enabled, no parameter is awaited, and the test has ended.
    fn is_scanning(&self) -> bool
        ensures { result ≡ is_scanning self.now }
    {
        self.enabled && self.mode == Mode::Ready && self.test == 0
    }

    /// The code that the layout has for a place of its own, in a layer.
    #[tactic(auto, using(crate::proofs::Silent::some_with))]
    fn code_of(layout: &Layout, on_fn: bool, place: Place) -> u8
        requires { HasCode layout.now place }
        ensures { result ≡ (keys_of layout.now).code on_fn place }
    {
        if on_fn {
            layout.fn_code_at(place).unwrap()
        } else {
            layout.code_at(place).unwrap()
        }
    }

    /// The key that repeats has a tick less to wait. In its last it is entered, in the layer of its press, unless the
    /// line is inhibited.
    fn repeat(&mut self, inhibited: bool, layout: &Layout)
        requires { ForSome self.old.repeats (λ r. HasCode layout.now r.place) }
        ensures repeated { self.new ≡ repeated self.old.repeats (keys_of layout.now) inhibited self.old }
        ensures known { IfSome self.new.repeats (λ r. HasCode layout.now r.place) }
    {
        let Some(repeat) = self.repeats else {
            return;
        };
        if repeat.count > 1 {
            self.repeats = Some(Repeat {
                count: repeat.count - 1,
                ..repeat
            });
            return;
        }
        self.repeats = Some(Repeat {
            count: period(self.rate),
            ..repeat
        });
        if !inhibited {
            self.queue
                .enter(&[Self::code_of(layout, repeat.on_fn, repeat.place)]);
        }
    }

    /// Step 5: the edges in their order.
    fn see_edges(&mut self, scanning: bool, edges: &[TickEdge], layout: &Layout)
        requires repeats { ForSome self.old.repeats (λ r. HasCode layout.now r.place) }
        requires edges { All (λ e. HasEntry layout.now e.place) edges.now }
        ensures seen { self.new ≡ edges_if scanning (keys_of layout.now) edges.now self.old }
        ensures known { IfSome self.new.repeats (λ r. HasCode layout.now r.place) }
    {
        for edge in edges {
            self.see_edge(scanning, *edge, layout);
        }
    }

    /// An edge changes what is held; one of the Fn key does no more. If scanning is on, a press enters the make and is
    /// the key that repeats; a release enters the break, if its key sends one, and ends its own repeating.
    #[tactic(auto, using(crate::proofs::Silent::has_code))]
    fn see_edge(&mut self, scanning: bool, edge: TickEdge, layout: &Layout)
        requires repeats { ForSome self.old.repeats (λ r. HasCode layout.now r.place) }
        requires edge { HasEntry layout.now edge.place }
        ensures seen { self.new ≡ edge_if scanning (keys_of layout.now) edge.place edge.down edge.on_fn self.old }
        ensures known { IfSome self.new.repeats (λ r. HasCode layout.now r.place) }
    {
        let TickEdge { place, down, on_fn } = edge;
        self.held.edge(place, down);
        if !scanning || layout.fn_place() == Some(place) {
            return;
        }
        let code = Self::code_of(layout, on_fn, place);
        if down {
            self.queue.enter(&[code]);
            self.repeats = Some(Repeat {
                place,
                count: delay(self.rate),
                on_fn,
            });
        } else {
            if !layout.make_only(place) {
                self.queue.enter(&[0xf0, code]);
            }
            self.end_repeating(place);
        }
    }

    /// A release ends the repeating of its own key.
    fn end_repeating(&mut self, place: Place)
        ensures { self.new ≡ record self.old { repeats = ended_at place self.old.repeats } }
    {
        if let Some(repeat) = self.repeats
            && repeat.place == place
        {
            self.repeats = None;
        }
    }
}
