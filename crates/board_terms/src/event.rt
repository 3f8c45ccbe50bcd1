//! What happens from outside: keys go down and up, and the host acts.

use crate::place::Place;

/// An edge of a key: the key at this place goes down, or up. The stamp counts cycles of 2.5 microseconds; stamp 0 is
/// cycle 4,096 of a run. Source: our own.
#[derive(Clone, Copy, Debug, PartialEq, Eq, Default)]
pub struct Edge {
    /// When, in cycles from stamp 0 on.
    pub stamp: u64,
    /// Which key, by its place in the matrix.
    pub place: Place,
    /// Whether it goes down.
    pub down: bool,
}

/// What the host does in an event, or what the line does to the next frame. Source: PC/AT Technical Reference, the
/// ports of the keyboard controller; the mask, the taking of a word and the noise are our own.
#[derive(Clone, Copy, Debug, PartialEq, Eq, Default)]
pub enum HostAct {
    /// It writes this byte to port 60h.
    Write60(u8),
    /// It writes this byte to port 64h.
    Write64(u8),
    /// It reads port 60h.
    Read60,
    /// It masks the keyboard's interrupt.
    Mask,
    /// It lets the keyboard's interrupt through again.
    Unmask,
    /// It takes a word from the buffer of INT 09h.
    Take,
    /// It reads the status at port 64h.
    #[default]
    Status,
    /// Noise turns round one bit of the keyboard's next frame, the start being bit 0: a data bit, 1 to 8, or the
    /// parity, 9.
    Flip(u8),
}

/// An event of the host. The stamp counts as an edge's does. Source: our own.
#[derive(Clone, Copy, Debug, PartialEq, Eq, Default)]
pub struct HostEvent {
    /// When, in cycles from stamp 0 on. A write may have to wait longer.
    pub stamp: u64,
    /// What is done.
    pub act: HostAct,
}
