//! What is so of the model's whole runs: each byte passes over the link exactly once, a quiet history has one log,
//! wherever in the cadence its ticks start, and no history's log is longer than its ticks and events allow.
//!
//! A tick may start up to five cycles past its multiple of 2,048, as the run comes to it. A history is quiet if the
//! host writes, reads and masks nothing, its stamps lie in the second halves of the ticks, and its end isn't one to
//! five cycles after a multiple of 2,048. Then its expected log is the same for each list of starts, a function of
//! layout and history alone. This layer knows the keyboard's model and the link's, and proves laws of them; nothing of
//! it is computed. It must not know how a run is made, nor the text of a log. Source: our own.
#![tactic(auto)]

ghost use Rattle.law_quiet_log.specs.Length.{LengthLaw, LimitLaw};
ghost use Rattle.law_quiet_log.specs.Once.{AllCounted, AllInOrder, ArrivalLaw, ArrivesAsOffered, CutIsOffered};
ghost use Rattle.law_quiet_log.specs.Once.{EachByteOnce, LineInOrder, SilentInTest};
ghost use Rattle.law_quiet_log.specs.Quiet.{EvenLaw, ListedLaw, QuietLaw};

/// The expected log of a quiet history is the same wherever in the cadence its ticks start: the one of the starts at
/// the multiples of 2,048 themselves, which are starts in the cadence too. Nothing is done when it is called; the laws
/// are its contract.
pub fn quiet_histories()
    ensures even { EvenLaw }
    ensures starts { QuietLaw }
    ensures listed { ListedLaw }
{}

/// A byte passes over the link exactly once: it arrives at the controller in one cycle of the tick in which the
/// keyboard takes it away, and it is the byte that was offered. In each tick, whatever its meeting, what waited arrives,
/// is taken away by a command or a reset, or waits on in its order; in a tick without an arrival or a command nothing is
/// taken away. Over any ticks each byte that waited or came to wait has arrived once, or was taken away once,
/// or waits still. Over ticks that clear nothing what waits after the reply arrives in its order, or waits still; over
/// ticks without a command or a reset, once the test has ended, so does all that waits, and nothing comes in between.
pub fn once_over_the_link()
    ensures arrival { ArrivalLaw }
    ensures offered { ArrivesAsOffered }
    ensures silent { SilentInTest }
    ensures tick { EachByteOnce }
    ensures cut { CutIsOffered }
    ensures run { AllCounted }
    ensures line { LineInOrder }
    ensures plain { AllInOrder }
{}

/// A log has four items a tick at most, and four an event of the host: fewer than 800,000 for an accepted history, whose
/// ticks have their starts in the cadence up to the first at or after its end.
pub fn logs_are_limited()
    ensures length { LengthLaw }
    ensures limit { LimitLaw }
{}
