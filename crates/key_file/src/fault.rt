//! Why a key file gives no history.

ghost use Rattle.std.specs.Prelude.{◌≡◌};
ghost use Rattle.key_file.specs.KeyFile.{key_fault, placed_fault};
ghost use Rattle.key_file.specs.Rules.{number_of};
ghost use Rattle.key_file.specs.declared.fault.KeyFault.TheVariants.{Memory};

use crate::rule::Rule;
use std::alloc::AllocError;
use thiserror::Error;

/// The greatest stamp of an event: 600 seconds.
pub(crate) const LAST_STAMP: u64 = 240_000_000;

/// Why a key file gives no history: its first faulty line, counted from 1, and the lowest number of a rule that it
/// breaks.
///
/// The numbers are 1 form, 2 unknown word, 3 unknown key, 4 a falling stamp, 5 press of a key that is down or release
/// of one that is up, 6 dwell, 7 density, 8 no end (at the number of lines plus one), 9 a line after the end, 10 a
/// stamp past 240,000,000, 11 more than 65,536 events.
#[derive(Clone, Copy, Debug, PartialEq, Eq, Drop)]
pub enum FileFault {
    /// A rule other than those of time is broken.
    Input {
        line: u32,
        number: u8,
    },
    /// Rule 4, 6, 7 or 10 is broken, by the stamps `a` and `b`, in cycles.
    Timing {
        line: u32,
        number: u8,
        a: u64,
        b: u64,
    },
}

/// The same, if memory may also run out.
#[derive(Clone, Copy, Debug, PartialEq, Eq, Drop, Error)]
pub enum KeyFault {
    /// A rule other than those of time is broken.
    #[error("line {line} has fault {number}")]
    Input {
        line: u32,
        number: u8,
    },
    /// Rule 4, 6, 7 or 10 is broken, by the stamps `a` and `b`, in cycles.
    #[error("line {line} has fault {number} with stamps {a} and {b}")]
    Timing {
        line: u32,
        number: u8,
        a: u64,
        b: u64,
    },
    /// There is no memory.
    #[error("out of memory")]
    Memory,
}

/// The fault of a reader that takes memory.
pub(crate) fn key_fault(fault: FileFault) -> KeyFault
    ensures { result ≡ key_fault fault }
{
    match fault {
        FileFault::Input { line, number } => KeyFault::Input { line, number },
        FileFault::Timing { line, number, a, b } => KeyFault::Timing { line, number, a, b },
    }
}

impl From<AllocError> for KeyFault {
    ghost from_gives = { λ _ fault. fault ≡ Memory };

    fn from(_error: AllocError) -> Self {
        KeyFault::Memory
    }
}

/// The number of a rule, 1 to 11.
fn number_of(rule: Rule) -> u8
    ensures { result ≡ number_of rule }
{
    match rule {
        Rule::Form => 1,
        Rule::UnknownWord => 2,
        Rule::UnknownKey => 3,
        Rule::Order(_, _) => 4,
        Rule::Held => 5,
        Rule::Dwell(_, _) => 6,
        Rule::Density(_, _) => 7,
        Rule::NoEnd => 8,
        Rule::AfterEnd => 9,
        Rule::Late(_) => 10,
        Rule::TooMany => 11,
    }
}

/// The fault of a line that breaks a rule.
pub(crate) fn placed_fault(line: u32, rule: Rule) -> FileFault
    ensures { key_fault result ≡ placed_fault line rule }
{
    let number = number_of(rule);
    match rule {
        Rule::Order(a, b) | Rule::Dwell(a, b) | Rule::Density(a, b) => {
            FileFault::Timing { line, number, a, b }
        }
        Rule::Late(b) => FileFault::Timing {
            line,
            number,
            a: LAST_STAMP,
            b,
        },
        _ => FileFault::Input { line, number },
    }
}
