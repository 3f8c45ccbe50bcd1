//! What the tokens so far said.

ghost use Rattle.std.specs.Prelude.{◌≡◌};
ghost use Rattle.capture_vcd.specs.Levels.{at_start, due, turns, with_sample, without};

use crate::part::Part;
use crate::unit::Unit;
use board_terms::{HIGH, Lines};

/// The levels of the two wires from a time on, in nanoseconds.
#[derive(Clone, Copy, Debug, PartialEq, Eq, Drop)]
pub struct Sample {
    pub time: u64,
    pub lines: Lines,
}

/// What the tokens so far said.
#[derive(Clone, Copy, Drop)]
pub(crate) struct State {
    /// Where the next token is.
    pub(crate) part: Part,
    /// The unit of time.
    pub(crate) unit: Option<Unit>,
    /// The codes of the two wires.
    pub(crate) clk: Option<u64>,
    pub(crate) dat: Option<u64>,
    /// The time in nanoseconds.
    pub(crate) time: u64,
    /// The levels by the changes so far.
    pub(crate) lines: Lines,
    /// The levels of the last sample.
    pub(crate) given: Lines,
}

/// What a token leaves, and the sample that it completes.
#[derive(Clone, Copy, Drop)]
pub(crate) struct Step {
    pub(crate) state: State,
    pub(crate) sample: Option<Sample>,
}

/// Whether a wire has turned.
fn turns(before: bool, now: bool) -> bool
    ensures { result ≡ turns before now }
{
    if before { !now } else { now }
}

impl State {
    /// Before the first token: both wires are high, as they are if nobody pulls them.
    pub(crate) fn new() -> State
        ensures { result ≡ at_start }
    {
        State {
            part: Part::Outside,
            unit: None,
            clk: None,
            dat: None,
            time: 0,
            lines: HIGH,
            given: HIGH,
        }
    }

    /// The sample of this time, unless its levels are those of the last one.
    fn due(&self) -> Option<Sample>
        ensures { result ≡ due self.now }
    {
        let turned = turns(self.given.clk, self.lines.clk) || turns(self.given.dat, self.lines.dat);
        turned.then_some(Sample {
            time: self.time,
            lines: self.lines,
        })
    }

    /// This state, with no sample.
    pub(crate) fn without(self) -> Step
        ensures { result ≡ without self }
    {
        Step {
            state: self,
            sample: None,
        }
    }

    /// The state with which a later time begins, or the end; and the sample of the time before.
    pub(crate) fn with_sample(self, part: Part, time: u64) -> Step
        ensures { result ≡ with_sample part time self }
    {
        Step {
            state: State {
                part,
                time,
                given: self.lines,
                ..self
            },
            sample: self.due(),
        }
    }
}
