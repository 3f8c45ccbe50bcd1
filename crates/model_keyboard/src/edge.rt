//! An edge as a tick sees it.

use board_terms::Place;

/// A key that went down or up: its place, and whether it was pressed in the second layer, that under Fn. A release is
/// in the layer of its press.
#[derive(Clone, Copy, Debug, PartialEq, Eq)]
pub struct TickEdge {
    /// Where the key is.
    pub place: Place,
    /// Whether it went down.
    pub down: bool,
    /// Whether the layer of its press is the one under Fn.
    pub on_fn: bool,
}
