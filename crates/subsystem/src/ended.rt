//! The outcome of a run whose log went to a sink.

ghost use Rattle.std.specs.Prelude.{◌≡◌};

use crate::counts::Counts;
use mcs48_core::Mcu;

/// A run from power-on to the first tick start at or after the end stamp, whose log was put into a sink line by line.
#[derive(Drop)]
pub struct Ended {
    pub starts: Vec<u64>,
    pub end: Mcu,
    pub steps: u64,
    pub cycles: u64,
    pub counts: Counts,
}

impl Ended {
    /// The stamps of the tick starts, the last of which ended the run.
    pub fn starts(&self) -> &[u64]
        ensures starts { result.now ≡ self.now.starts.items }
    {
        self.starts.as_slice()
    }

    /// The processor there, before the step that begins the last tick.
    pub fn end(&self) -> &Mcu
        ensures end { result.now ≡ self.now.end }
    {
        &self.end
    }

    /// The joint steps that were made.
    pub fn steps(&self) -> u64
        ensures steps { result ≡ self.now.steps }
    {
        self.steps
    }

    /// The cycles that they took.
    pub fn cycles(&self) -> u64
        ensures cycles { result ≡ self.now.cycles }
    {
        self.cycles
    }

    /// How many bytes reached port 60h.
    pub fn ports(&self) -> u64
        ensures ports { result ≡ self.now.counts.ports }
    {
        self.counts.ports
    }

    /// How many words came into the buffer of INT 09h.
    pub fn words(&self) -> u64
        ensures words { result ≡ self.now.counts.words }
    {
        self.counts.words
    }

    /// How many beeps there were.
    pub fn beeps(&self) -> u64
        ensures beeps { result ≡ self.now.counts.beeps }
    {
        self.counts.beeps
    }
}
