//! Laws of the key matrix, each the contract of a function that does nothing.

ghost use Rattle.board_terms.specs.Laws.{EdgesShown, FirstEdgesShown};

/// Edges that are made in their order show each key as its own edges say.
pub fn edges_shown()
    ensures shown { EdgesShown }
{}

/// A matrix to which the edges up to a cycle were applied in order shows the keys that are down at it.
pub fn first_edges_shown()
    ensures shown { FirstEdgesShown }
{}
