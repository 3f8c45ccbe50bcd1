//! What the lines so far came to, and what a line adds to that.

ghost use Rattle.std.specs.Prelude.{◌≡◌, ◌&&◌, ◌==◌, false};
ghost use Rattle.hexfile.specs.Memory.{is_past};
ghost use Rattle.hexfile.specs.Record.{said_by};
ghost use Rattle.hexfile.specs.Rules.{fits_kind, first_broken, judgements, after_record};

use crate::fault::Rule;
use crate::memory::{Memory, data_breaks, place};
use crate::record::Record;

/// The type of a line that gives data.
const DATA: u8 = 0;

/// The type of the line that ends a file.
const END: u8 = 1;

/// What the lines so far came to.
#[derive(Drop)]
pub(crate) struct Progress {
    /// Each place with the byte that a line gave to it, or none.
    pub(crate) memory: Memory,
    /// Whether a line ended the file.
    pub(crate) ended: bool,
}

/// Whether a line has a known type, and the bytes that its type asks for.
fn fits_kind(line: &Record) -> bool
    ensures { result ≡ fits_kind (said_by line.now) }
{
    match line.kind {
        0 => true,
        1 => line.bytes.is_empty(),
        2 | 4 => line.bytes == [0, 0].as_slice(),
        3 | 5 => line.bytes.len() == 4,
        _ => false,
    }
}

/// The first rule that a line breaks, if there is one.
pub(crate) fn broken_by(progress: &Progress, line: &Record) -> Option<Rule>
    ensures { result ≡ first_broken (judgements progress.now (said_by line.now)) }
{
    if line.total != 0 {
        return Some(Rule::Sum);
    }
    if !fits_kind(line) {
        return Some(Rule::Kind);
    }
    if line.kind == DATA {
        let rule = data_breaks(&progress.memory, line);
        if rule.is_some() {
            return rule;
        }
    }
    progress.ended.then_some(Rule::AfterEnd)
}

/// Does what a line says.
pub(crate) fn obey(progress: &mut Progress, line: &Record)
    requires { ((said_by line.now).kind == 0 && is_past (said_by line.now)) ≡ false }
    ensures { progress.new ≡ after_record progress.old (said_by line.now) }
{
    if line.kind == DATA {
        place(&mut progress.memory, line);
    } else if line.kind == END {
        progress.ended = true;
    }
}
