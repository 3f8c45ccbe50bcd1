//! Items with their tick.

ghost use Rattle.std.specs.Prelude.{◌≡◌, ◌++◌, OnOk, map};
ghost use Rattle.subsystem.specs.Account.{in_tick};

use host_turn::Stamped;
use model_link::LogLine;
use std::alloc::AllocError;

/// Puts items after a log, in this tick.
pub fn push_lines(log: &mut Vec<LogLine>, tick: u32, items: &[Stamped]) -> Result<(), AllocError>
    ensures lines { OnOk result (log.new.items ≡ log.old.items ++ map (in_tick tick) items.now) }
{
    for stamped in items {
        log.push(LogLine {
            tick,
            item: stamped.item,
        })?;
    }
    Ok(())
}
