//! Why a text is no certificate of a program.

ghost use Rattle.std.specs.Prelude.{◌≡◌};
ghost use Rattle.cycle_cert.specs.Faults.{number_of, at_line};
ghost use Rattle.cycle_cert.specs.declared.fault.CertFault.TheVariants.{Memory};

use std::alloc::AllocError;
use thiserror::Error;

/// Why a text is no certificate of a program.
#[derive(Clone, Copy, Debug, PartialEq, Eq, Drop, Error)]
pub enum CertFault {
    /// The line with the first fault, counted from 1, and the fault's number: 1 form, 2 a place given twice, 3 no line
    /// that isn't blank, 4 a row that may not be certified, 5 a place that can follow isn't certified, 6 a bound that
    /// doesn't fall.
    #[error("line {line} has fault {number}")]
    Line { line: u32, number: u8 },
    /// There is no memory.
    #[error("out of memory")]
    Memory,
}

impl From<AllocError> for CertFault {
    ghost from_gives = { λ _ fault. fault ≡ Memory };

    fn from(_error: AllocError) -> Self {
        CertFault::Memory
    }
}

/// A rule of certificates.
#[derive(Clone, Copy, Drop)]
pub(crate) enum Rule {
    /// A line has its form.
    Form,
    /// No place is given twice.
    Twice,
    /// There is a line that isn't blank.
    Empty,
    /// The row at a certified place may be certified.
    Row,
    /// Each place that can follow is certified, or the target.
    Follower,
    /// The bound falls by the row's cycles at least.
    Fall,
}

impl Rule {
    /// The number by which a message names the rule.
    fn number(self) -> u8
        ensures { result ≡ number_of self }
    {
        match self {
            Rule::Form => 1,
            Rule::Twice => 2,
            Rule::Empty => 3,
            Rule::Row => 4,
            Rule::Follower => 5,
            Rule::Fall => 6,
        }
    }

    /// The rule, broken at a line.
    pub(crate) fn at(self, line: u32) -> CertFault
        ensures { result ≡ at_line line self }
    {
        CertFault::Line {
            line,
            number: self.number(),
        }
    }
}
