//! How a character is typed.

use layout_reader::Entry;

/// How a character is typed: with one key, or with a key under a shift key.
#[derive(Clone, Copy)]
pub(crate) enum Stroke {
    /// The key of this entry.
    Plain(Entry),
    /// The shift key of the first entry, and the key of the second under it.
    Shifted(Entry, Entry),
}
