//! The two layers over a run: which one an edge belongs to.

use board_terms::Place;
use layout_reader::Layout;
use model_keyboard::TickEdge;
use std::alloc::{AllocError, Global};
use std::marker::Model;

/// Whether the Fn key is down, and by place whether the last press there was in the layer under Fn. A clause sees it as
/// `Layers`.
#[derive(Drop)]
pub(crate) struct Layering {
    fn_down: bool,
    pressed_in: [bool; 96],
}

impl Model for Layering {
    ghost use Rattle.model_keyboard.specs.Layers.{Layers};

    ghost Value = { Layers };

    ghost view = { λ l. record { fn_down = l.fn_down; pressed_in = l.pressed_in } };
}

impl Layering {
    ghost use Rattle.std.specs.Prelude.{◌≡◌, IfOk};
    ghost use Rattle.layout_reader.specs.Layouts.{is_fn_place};
    ghost use Rattle.model_keyboard.specs.Layers.{no_layers, in_layer, layers_after, layered, all_layers_after};

    /// Before any edge: the Fn key is up, and no key was pressed.
    pub(crate) fn new() -> Layering
        ensures { result ≡ no_layers }
    {
        Layering {
            fn_down: false,
            pressed_in: [false; 96],
        }
    }

    /// The edges of a tick, by their places and whether the keys went down, each with its layer.
    pub(crate) fn follow(
        &mut self,
        alloc: Global,
        changes: &[(Place, bool)],
        layout: &Layout,
    ) -> Result<Vec<TickEdge>, AllocError>
        ensures edges { IfOk result (λ edges. edges.items ≡ layered (is_fn_place layout.now) changes.now self.old) }
        ensures layers { IfOk result (λ edges. self.new ≡ all_layers_after (is_fn_place layout.now) changes.now self.old) }
    {
        let mut edges = Vec::new(alloc);
        for (place, down) in changes {
            edges.push(self.follow_edge(*place, *down, layout))?;
        }
        Ok(edges)
    }

    /// A press is in the layer that the Fn key selects, and a release in that of its press; the Fn key selects it.
    fn follow_edge(&mut self, place: Place, down: bool, layout: &Layout) -> TickEdge
        ensures edge { result ≡ in_layer self.old (place, down) }
        ensures layers { self.new ≡ layers_after (is_fn_place layout.now) (place, down) self.old }
    {
        let number = usize::from(place.number());
        let on_fn = if down {
            self.fn_down
        } else {
            self.pressed_in[number]
        };
        self.pressed_in[number] = on_fn;
        if layout.fn_place() == Some(place) {
            self.fn_down = down;
        }
        TickEdge { place, down, on_fn }
    }
}
