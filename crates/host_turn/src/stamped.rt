//! What is said, with its cycle.

use pc_tables::Item;

/// An item of the log with the cycle in which it was said.
#[derive(Clone, Copy, Debug, PartialEq, Eq)]
pub struct Stamped {
    /// The cycle, counted from 0 at power-on.
    pub cycle: u64,
    /// What was said.
    pub item: Item,
}

/// Zeros throughout, so that a list of them is made fast.
impl Default for Stamped {
    fn default() -> Stamped {
        Stamped {
            cycle: 0,
            item: Item::Port(0),
        }
    }
}
