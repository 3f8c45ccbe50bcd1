//! A whole script.

ghost use Rattle.std.specs.Prelude.{◌≡◌, ◌<◌, ◌^◌, length};
ghost use Rattle.debugger.specs.Scripts.{take_line, script_of};
ghost use Rattle.debugger.specs.Faults.{IsVerdict};

use crate::rule::{Rule, SessionFault, judged};
use text_lines::{is_blank_line, next_line};

/// How many of so many probes a line leaves, or the first rule that it breaks.
fn take_line(line: &[u8], probes: usize) -> Result<usize, Rule>
    ensures { result ≡ take_line probes line.now }
{
    if is_blank_line(line) {
        return Ok(probes);
    }
    let command = judged(line, probes)?;
    Ok(command.left(probes))
}

/// Judges a script, of fewer than 2^32 bytes, for so many probes: its first line with a fault, and the fault's number.
///
/// Each line that isn't blank is `step K`, `go K`, `show`, `ram A`, `arm P A B`, `tell P` or `drop P`, fields parted
/// by single spaces. K and P have one to nine decimal digits; the A of `ram` has two hexadecimal digits and is below
/// 80; the A of `arm` has three hexadecimal digits and its B two. A line outside this grammar has fault 1. A line has
/// fault 2 if its P isn't below the number of probes there, of which each earlier `drop` has taken one away.
#[tactic(auto, unfolding(crate::specs::Scripts::script_of))]
pub fn check_script(text: &[u8], probes: usize) -> Result<(), SessionFault>
    requires { length text.now < 2 ^ 32 }
    ensures verdict { IsVerdict (script_of probes text.now) result }
{
    let mut number = 0;
    let mut left = probes;
    let mut rest = text;
    while let Some((line, after)) = next_line(rest) {
        number += 1;
        match take_line(line, left) {
            Err(rule) => return Err(rule.at(number)),
            Ok(fewer) => left = fewer,
        }
        rest = after;
    }
    Ok(())
}
