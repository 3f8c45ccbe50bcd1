//! A line of the key file.

use edge_queue::Pushed;
use layout_reader::Entry;

/// A line of the key file.
#[derive(Clone, Copy)]
pub(crate) enum KeyLine {
    /// The key of an entry goes down or up.
    Turned(Entry, Pushed),
    /// No key of the layout sends a code.
    Unsent(u8),
}
