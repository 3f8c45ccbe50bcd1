//! Why bytes are no saved queue.

/// Why bytes are no saved queue that this version loads.
#[derive(Clone, Copy, Debug, PartialEq, Eq, Drop)]
pub enum NoQueue {
    /// There are not 1,629 of them.
    Length,
    /// They don't begin with KBD48QU.
    Format,
    /// They are of another version.
    Version,
    /// More than 160 edges wait.
    Count,
    /// An edge that waits is at no place of the matrix.
    Place,
    /// An edge that waits goes neither down nor up.
    Way,
}
