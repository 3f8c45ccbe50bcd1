//! The reader of a dump, sample by sample.

ghost use Rattle.std.specs.Prelude.{◌≡◌, ◌<◌, length};
ghost use Rattle.capture_vcd.specs.Reads.{IsGiven, IsRead, IsStep, is_over, reads_of};
ghost use Rattle.capture_vcd.specs.Tokens.{Fits};

use crate::fault::VcdFault;
use crate::header::Names;
use crate::part::Part;
use crate::state::{Sample, State, Step};
use crate::token::{Next, Tokens, next_token};
use std::marker::Model;

impl State {
    /// Whether nothing more comes.
    fn is_over(&self) -> bool
        ensures { result ≡ is_over self.now.part }
    {
        match self.part {
            Part::Over => true,
            _ => false,
        }
    }
}

/// What the next token of a dump leaves; or the rule that it breaks, at its line. After the end, nothing changes.
#[tactic(auto, using(crate::proofs::Steps::less_left, crate::proofs::Steps::none_left, crate::proofs::Steps::end_is_over))]
fn step<'a>(
    names: Names<'_>,
    tokens: Tokens<'a>,
    state: State,
) -> Result<(Step, Tokens<'a>), VcdFault>
    requires fits { Fits tokens }
    ensures step { IsStep names.entry.clk.now names.entry.dat.now tokens.entry state result }
{
    match next_token(tokens) {
        Next::Field(text, after) => match state.taken(names, text) {
            Ok(step) => Ok((step, after)),
            Err(rule) => Err(rule.at(after.line)),
        },
        Next::End(line) => match state.after_end() {
            Ok(step) => Ok((step, tokens)),
            Err(rule) => Err(rule.at(line)),
        },
    }
}

/// The first sample of what is left of a dump, with what is left after it; None if it has none. Or the first fault, if
/// it comes before a sample.
#[tactic(auto, using(crate::proofs::Steps::over_silent))]
fn next_in<'a>(
    names: Names<'_>,
    tokens: Tokens<'a>,
    state: State,
) -> Result<Option<(Sample, Tokens<'a>, State)>, VcdFault>
    requires fits { Fits tokens }
    ensures read { IsRead names.entry.clk.now names.entry.dat.now tokens.entry state result }
{
    let mut left = tokens;
    let mut state = state;
    while !state.is_over() {
        let (step, after) = step(names, left, state)?;
        left = after;
        state = step.state;
        if let Some(sample) = step.sample {
            return Ok(Some((sample, left, state)));
        }
    }
    Ok(None)
}

/// A dump of the levels of two wires, read sample by sample. A clause sees what is left: the samples up to the first
/// fault, and that fault, if there is one.
#[derive(Drop)]
pub struct Reader<'a> {
    names: Names<'a>,
    tokens: Tokens<'a>,
    state: State,
}

impl<'a> Model for Reader<'a> {
    ghost use Rattle.capture_vcd.specs.Reads.{Reads, reads_left};
    ghost use Rattle.capture_vcd.specs.Tokens.{Fits};

    ghost Value = { Reads };

    ghost view = { λ r. reads_left r.names.clk.now r.names.dat.now r.tokens r.state };

    ghost invariant = { λ r. Fits r.tokens };
}

impl<'a> Reader<'a> {
    /// A dump of fewer than 2^32 - 1 bytes, of which nothing is read yet, and the names of the clock and of the data
    /// wire in it.
    ///
    /// Its header says the unit of time, which is 1 ns, 10 ns, 100 ns, 1 µs or 10 µs, and has one signal of one bit with
    /// each of the two names. Any other signals and sections are skipped. Identifier codes of the two have at most nine
    /// characters. Times have at most 14 digits, and none is before the last one. A wire is high up to its first change,
    /// and each of its values is 0 or 1. (IEEE 1364; what is narrower is our own.)
    pub fn new(text: &'a [u8], clk: &'a [u8], dat: &'a [u8]) -> Reader<'a>
        requires size { length text.now < 4294967295 }
        ensures reads { result ≡ reads_of clk.now dat.now text.now }
    {
        Reader {
            names: Names { clk, dat },
            tokens: Tokens {
                line: 0,
                fields: b"",
                rest: text,
            },
            state: State::new(),
        }
    }

    /// The next sample: the levels at a time at which they differ from those of the sample before, in nanoseconds. Before
    /// the first sample both wires are high. None after the last. Or the first fault; after it there is nothing more.
    #[tactic(auto, using(crate::proofs::Steps::over_silent))]
    pub fn next_sample(&mut self) -> Result<Option<Sample>, VcdFault>
        ensures given { IsGiven self.old result self.new }
    {
        let read = next_in(self.names, self.tokens, self.state);
        if let Ok(Some((sample, tokens, state))) = read {
            self.tokens = tokens;
            self.state = state;
            return Ok(Some(sample));
        }
        self.state.part = Part::Over;
        match read {
            Err(fault) => Err(fault),
            Ok(_) => Ok(None),
        }
    }
}
