//! Checking a certificate.

ghost use Rattle.std.specs.Prelude.{◌≡◌, ◌≤◌, Ok, length, IfOk, IfErr};
ghost use Rattle.cycle_cert.specs.Answers.{answer_of, IsFaultOf, IsProved};

use crate::fault::{CertFault, Rule};
use crate::judging::Certificate;
use crate::reading::read;
use mcs48_isa::Image;
use std::alloc::Global;

/// What a certificate without a fault says.
#[derive(Clone, Copy, Debug, PartialEq, Eq, Drop)]
pub struct Proved {
    /// How many places are certified.
    pub places: u32,
    /// The greatest value that a bound takes, in machine cycles; 0 if no place is certified.
    pub greatest: u64,
}

/// Checks a certificate of at most 65,536 bytes against a program.
///
/// The first line that isn't blank is `target PPP`; each later one is `PPP N` or `PPP N M R`, fields parted by single
/// spaces. PPP has three hexadecimal digits and is below 800; N is decimal and at most 1,000,000; M is decimal and at
/// most 10,000; R is a digit from 0 to 7. The bound of the place PPP is `N + M * w` machine cycles, w the value of bank
/// 0's register R, or 256 for 00; or N alone.
///
/// A certified place is right if its row may be certified (rule 4), if each place that can follow is the target
/// or certified (rule 5), and if the bound falls by the row's cycles at least, for all values of the registers that
/// the row allows (rule 6). Rules 1, the form of a line, and 2, that no place is given twice, are judged of all lines
/// first. A text without a line that isn't blank breaks rule 3, at line 1.
///
/// Ok means: from every state of the processor that keeps its ranges, with bank 0 selected, both interrupts off and
/// the program counter, modulo 2,048, at a certified place, and with any levels at the pins in each step, the program
/// counter, modulo 2,048, is the target after at least one step and at most the bound's cycles, and no step before is
/// stuck. Both interrupts are off then still, bank 0 is selected still, and the ranges are kept, so that a certificate
/// of the path from there on takes over. `Line` is the first fault, by line and then by rule, rules 1 and 2 before all
/// others. `Memory` may come at any time, and says nothing of the text.
///
/// Source: our own.
#[tactic(auto, unfolding(crate::specs::Reading::certificate_of, crate::specs::Answers::answer_of))]
pub fn check_cert(alloc: Global, image: &Image, text: &[u8]) -> Result<Proved, CertFault>
    requires size { length text.now ≤ 65536 }
    ensures proved { IfOk result (λ proved. answer_of image.now.bytes text.now ≡ Ok proved) }
    ensures fault { IfErr result (IsFaultOf (answer_of image.now.bytes text.now)) }
    ensures sound { IfOk result (IsProved image.now.bytes text.now) }
{
    let draft = read(alloc, text)?;
    let Some(target) = draft.target else {
        return Err(Rule::Empty.at(1));
    };
    let cert = Certificate {
        target,
        table: &draft.table,
    };
    cert.judged(&image.bytes)
}
