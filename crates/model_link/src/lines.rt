//! The log's lines.

ghost use Rattle.std.specs.Prelude.{◌≡◌, ◌<◌, ◌≤◌, ◌-◌, ◌/◌, ◌^◌, min, length, IfOk};
ghost use Rattle.board_terms.specs.Cadence.{KeepsCadenceTo, listed, tick_of};
ghost use Rattle.model_link.specs.Expected.{lines as lines_of};

use crate::line::LogLine;
use board_terms::{STAMP_0, TICK_CYCLES};
use host_turn::Stamped;
use std::alloc::{AllocError, Global};

/// What was said, each item with its tick.
pub(crate) fn log_lines(
    alloc: Global,
    log: &[Stamped],
    starts: &[u64],
) -> Result<Vec<LogLine>, AllocError>
    requires some { 0 < length starts.now }
    requires near { length starts.now < 2 ^ 32 }
    requires cadence { KeepsCadenceTo (listed starts.now) (length starts.now - 1) }
    ensures { IfOk result (λ lines. lines.items ≡ lines_of (listed starts.now) (length starts.now - 1) log.now) }
{
    let mut lines = Vec::new(alloc);
    for stamped in log {
        lines.push(LogLine {
            tick: tick_at(starts, stamped.cycle),
            item: stamped.item,
        })?;
    }
    Ok(lines)
}

/// The tick of a cycle: the number of starts at or before it, less one, or 0 if there is none. By the cadence no
/// more than one start has to be looked at.
fn tick_at(starts: &[u64], cycle: u64) -> u32
    requires some { 0 < length starts.now }
    requires near { length starts.now < 2 ^ 32 }
    requires cadence { KeepsCadenceTo (listed starts.now) (length starts.now - 1) }
    ensures { result ≡ tick_of (listed starts.now) (length starts.now - 1) cycle }
{
    let last = starts.len() - 1;
    let n = near_tick(cycle, last);
    let begun = if STAMP_0 + starts[n] <= cycle {
        n + 1
    } else {
        n
    };
    begun.saturating_sub(1) as u32
}

/// The tick in which a cycle lies if ticks start at the multiples of 2,048, but none past the last.
fn near_tick(cycle: u64, last: usize) -> usize
    ensures { result ≡ min ((cycle - 4096) / 2048) last }
{
    (cycle.saturating_sub(STAMP_0) / TICK_CYCLES).min(last as u64) as usize
}
