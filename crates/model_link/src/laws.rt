//! Laws of the model, each the contract of a function that does nothing.

ghost use Rattle.model_link.specs.Laws.{CycleByCycle, EachSeenOnce, EdgesShown, LayersFollow};

/// The edges of a tick are what the columns of the matrix show against the keys held before it: at most four, of
/// different places, by rising place.
pub fn edges_shown()
    ensures shown { EdgesShown }
{}

/// An edge that a tick reads in time is seen by one tick, and by no other.
pub fn each_seen_once()
    ensures once { EachSeenOnce }
{}

/// The layers of the keys' presses follow all edges: those of earlier ticks and, in a tick, of lower places.
pub fn layers_follow()
    ensures layers { LayersFollow }
{}

/// What the spans of a tick do is what each of its cycles does: the lights, what comes over the link, the host,
/// the controller.
pub fn cycle_by_cycle()
    ensures cycles { CycleByCycle }
{}
