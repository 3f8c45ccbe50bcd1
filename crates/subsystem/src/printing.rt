//! The log's text.

ghost use Rattle.std.specs.Prelude.{◌≡◌, ◌++◌, IfOk};
ghost use Rattle.subsystem.specs.Texts.{log_text};

use model_link::LogLine;
use pc_tables::item_line;
use std::alloc::{AllocError, Global};

/// The text of a log: a line an item, `TICK ITEM`, in upper-case hexadecimal but for the tick, which is decimal. An error
/// if memory runs out.
pub fn print_log(alloc: Global, log: &[LogLine]) -> Result<Vec<u8>, AllocError>
    ensures text { IfOk result (λ text. text.items ≡ log_text log.now) }
{
    let mut text = Vec::new(alloc);
    for line in log {
        text.extend_from_slice(&item_line(line.tick, line.item))?;
    }
    Ok(text)
}
