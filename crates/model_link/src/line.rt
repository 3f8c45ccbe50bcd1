//! A line of the log.

use pc_tables::Item;

/// An item with its tick: the number of tick starts at or before its cycle, less one, or 0 if there is none.
#[derive(Clone, Copy, Debug, PartialEq, Eq)]
pub struct LogLine {
    /// The tick.
    pub tick: u32,
    /// What was said.
    pub item: Item,
}
