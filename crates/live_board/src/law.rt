//! Laws over the definitions alone.

ghost use Rattle.live_board.specs.Growing.{GrowsAtEnd};

/// An event that comes later changes nothing of a run so far: if no stamp of it is reached before a state's cycle,
/// that state is one of the grown story too. So a run goes on if its story grows at its end. Nothing is done when
/// it is called; the law is its contract.
pub fn stories_grow_at_end()
    ensures grows { GrowsAtEnd }
{}
