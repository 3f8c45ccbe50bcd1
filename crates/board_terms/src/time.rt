//! Where stamps begin, and how long a tick is.

/// The cycle of a run that is stamp 0. Source: our own.
pub const STAMP_0: u64 = 4096;

/// The cycles from one tick start to the next, if each starts where it is due. Source: our own.
pub const TICK_CYCLES: u64 = 2048;
