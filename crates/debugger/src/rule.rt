//! The rules of a script's lines.

ghost use Rattle.std.specs.Prelude.{◌≡◌, None, IfOk};
ghost use Rattle.debugger.specs.Commands.{HasCell};
ghost use Rattle.debugger.specs.Scripts.{number_of, probe_of, missing, judged, left};
ghost use Rattle.debugger.specs.Faults.{at_line, line_fault};

use crate::command::{Command, command_in};
use thiserror::Error;

/// The first line of a script that has a fault, counted from 1, and the fault's number: 1 form, 2 no such probe.
#[derive(Clone, Copy, Debug, PartialEq, Eq, Drop)]
pub enum SessionFault {
    Line { line: u32, number: u8 },
}

/// Why a line wasn't obeyed.
#[derive(Clone, Copy, Debug, PartialEq, Eq, Drop, Error)]
pub enum LineFault {
    /// The line hasn't the form.
    #[error("not a line of a script")]
    Bad,
    /// There is no probe of this number.
    #[error("no such probe")]
    NoProbe,
    /// There is no memory.
    #[error("out of memory")]
    Memory,
}

/// A rule of the lines of a script.
#[derive(Clone, Copy, Drop)]
pub(crate) enum Rule {
    /// A line has its form.
    Form,
    /// There is a probe of the number that it names.
    Probe,
}

impl Rule {
    /// The number by which a message names the rule.
    fn number(self) -> u8
        ensures { result ≡ number_of self }
    {
        match self {
            Rule::Form => 1,
            Rule::Probe => 2,
        }
    }

    /// The rule, broken at a line of a script.
    pub(crate) fn at(self, line: u32) -> SessionFault
        ensures { result ≡ at_line line self }
    {
        SessionFault::Line {
            line,
            number: self.number(),
        }
    }

    /// The rule, broken by a line alone.
    pub(crate) fn of_line(self) -> LineFault
        ensures { result ≡ line_fault self }
    {
        match self {
            Rule::Form => LineFault::Bad,
            Rule::Probe => LineFault::NoProbe,
        }
    }
}

impl Command {
    /// The number of the probe that it names, if it names one.
    fn probe(self) -> Option<u32>
        ensures { result ≡ probe_of self }
    {
        match self {
            Command::Arm { probe, .. } | Command::Tell(probe) | Command::Drop(probe) => Some(probe),
            _ => None,
        }
    }

    /// The rule that it breaks if there are so many probes, if it breaks it.
    fn missing(self, probes: usize) -> Option<Rule>
        ensures { result ≡ missing probes self }
    {
        match self.probe() {
            Some(probe) if probe as usize >= probes => Some(Rule::Probe),
            _ => None,
        }
    }

    /// How many of so many probes it leaves.
    pub(crate) fn left(self, probes: usize) -> usize
        ensures { result ≡ left self probes }
    {
        match self {
            Command::Drop(_) => probes.saturating_sub(1),
            _ => probes,
        }
    }
}

/// What a line asks for that isn't blank, if there are so many probes, or the first rule that it breaks.
pub(crate) fn judged(line: &[u8], probes: usize) -> Result<Command, Rule>
    ensures command { result ≡ judged probes line.now }
    ensures cell { IfOk result HasCell }
    ensures there { IfOk result (λ command. missing probes command ≡ None) }
{
    let command = command_in(line).ok_or(Rule::Form)?;
    match command.missing(probes) {
        Some(rule) => Err(rule),
        None => Ok(command),
    }
}
