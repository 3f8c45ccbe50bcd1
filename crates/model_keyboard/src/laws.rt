//! Laws of the keyboard, each the contract of a function that does nothing.

ghost use Rattle.model_keyboard.specs.Laws.{NoneLost, InOrder, AtMostSixteen, CodesStayWhole};
ghost use Rattle.model_keyboard.specs.Once.{CutIsOffered, GotLeaves, NothingElseLeaves, OffersFirst};
ghost use Rattle.model_keyboard.specs.Once.{ResetLeaves, RestAdds, SentLeaves, StaysInLine};

/// The queue loses exactly what its rules say, keeps the order of what entered, never holds more than sixteen bytes,
/// and never parts a break's F0 from its code.
pub fn queue_is_in_order()
    ensures loses { NoneLost }
    ensures order { InOrder }
    ensures sixteen { AtMostSixteen }
    ensures codes { CodesStayWhole }
{}

/// What waits to be sent leaves the keyboard exactly once: the byte that is offered is the first that waits; if it
/// is sent it is taken away, and nothing else, but if a reset is made, which leaves the cleared queue alone; a tick
/// in which nothing passes takes nothing away; a byte from the system leaves a due AA, and the queue but for three
/// commands that clear it, and its reply takes the place of the one that waited. The rest of a tick only adds, after
/// what waits but for the AA at the end of the test; so a byte that was cut off is offered again.
pub fn sent_once()
    ensures offers { OffersFirst }
    ensures sends { SentLeaves }
    ensures resets { ResetLeaves }
    ensures keeps { NothingElseLeaves }
    ensures commands { GotLeaves }
    ensures rest { RestAdds }
    ensures line { StaysInLine }
    ensures cut { CutIsOffered }
{}
