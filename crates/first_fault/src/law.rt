//! What the definition says, as a law.

ghost use Rattle.first_fault.specs.Law.{RefusesTheFirst, RefusesByTheLowest, TakesWhatIsRight, JudgesTheEnd};

/// The law of the first fault, at numbers for items, rules and what items give. If some items are taken one after
/// another, and the next one breaks a rule, the answer is that item's number with that rule, whatever follows it. An
/// item that is judged by rules in their order is refused with the lowest that it breaks, and taken if it breaks
/// none. If all items are taken, the end is judged, and a rule that it breaks has the number of items plus one.
pub fn an_item_is_refused_after_those_before_it()
    ensures first { RefusesTheFirst }
    ensures lowest { RefusesByTheLowest }
    ensures right { TakesWhatIsRight }
    ensures end { JudgesTheEnd }
{}
