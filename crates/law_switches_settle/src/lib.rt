//! The run of a layout's image under switches that settle late: each stroke of a key types once.
//!
//! This layer has laws alone. It joins the joint run under any edges (`law_agreement`) with the model under contacts that bounce
//! (`law_keys_settle`), and says what INT 09h reads then. It must not know how a run is made. A stamp is a cycle of 2.5
//! microseconds. Source: our own.
#![tactic(auto)]

ghost use Rattle.law_switches_settle.specs.Reading.{StrokesAreRead};
ghost use Rattle.law_switches_settle.specs.Running.{BouncesRunClean, SwitchesRunClean};

use law_agreement::goes_on_from_any_start;
use law_keys_bounce::keys_may_bounce;
use law_keys_settle::switches_type_once;
use law_link_times::{nothing_comes_twice, nothing_is_read_twice};

/// Let a layout have a debounce, let each contact show its key except for 6,000 cycles (15 milliseconds) after each of the
/// key's edges, and let two edges of one key be at least 10,300 cycles (25.75 milliseconds) apart. Let each tick show at most
/// four changed keys; so it is if in any 2,225 cycles (5.6 milliseconds) at most four contacts move. Then at each tick start of
/// the joint run of the layout's compiled image, data memory shows the keyboard of the model without a debounce, and what was
/// said is what that model says, under the same keys without bouncing, where each edge comes up to 10,300 cycles later. The
/// host may do what it likes, and the part may hold anything when it is switched on. Nothing is done when it is called; the
/// laws are its contract.
pub fn switches_run_clean()
    ensures run { SwitchesRunClean }
    ensures bounces { BouncesRunClean }
{
    goes_on_from_any_start();
    keys_may_bounce();
}

/// In such a run, if the host only takes words and reads the status: up to each tick start INT 09h has read just what the
/// controller put out for the bytes that came, each once. What comes in a tick are the codes of the edges that it takes, of a
/// held key that repeats, and the AA of the test's end, each once. What is taken of a key are its own edges, each once and in
/// their order: all that are 10,300 cycles old, and none that hasn't come. So a stroke is one make and one break, however the
/// contact bounces. Nothing is done when it is called; the law is its contract.
pub fn strokes_are_read()
    ensures read { StrokesAreRead }
{
    switches_type_once();
    nothing_comes_twice();
    nothing_is_read_twice();
}
