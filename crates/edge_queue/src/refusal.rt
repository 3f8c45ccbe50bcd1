//! Why an edge isn't queued.

/// Why an edge isn't queued. The queue is as it was.
#[derive(Clone, Copy, Debug, PartialEq, Eq, Drop)]
pub enum NotQueued {
    /// After the edges that wait the key is down already, or up.
    Repeated,
    /// A key goes down, and 64 edges wait. A release finds room.
    Full,
}
