//! How keyboard and line met in a tick.

/// What passed between keyboard and system in a tick: a byte from the system, with whether its parity was right;
/// nothing, because the system held the line; nothing, because nothing was offered; the byte offered; or nothing,
/// because the system pulled the line before the byte's first edge, or broke its frame off later.
#[derive(Clone, Copy, Debug, PartialEq, Eq, Drop)]
pub enum Meeting {
    Got(u8, bool),
    Inhibited,
    Idle,
    Sent,
    Cut,
}
