//! What happens to a keyboard: something that the log says, or a byte that passes over the two wires.

use board_terms::Transfer;
use pc_tables::Item;

/// What happened: something that the log says, or a byte that passed over the two wires.
#[derive(Clone, Copy, Debug, PartialEq, Eq)]
pub enum What {
    /// The log says this.
    Said(Item),
    /// This byte passed.
    Passed(Transfer),
}

/// What happened, and the cycle in which it did.
#[derive(Clone, Copy, Debug, PartialEq, Eq)]
pub struct Happened {
    pub cycle: u64,
    pub what: What,
}

/// Zeros throughout, so that a list of them is made fast.
impl Default for Happened {
    fn default() -> Happened {
        Happened {
            cycle: 0,
            what: What::Said(Item::Port(0)),
        }
    }
}
