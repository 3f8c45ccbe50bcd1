//! When strokes are made in key files that programs write. Stamps and times are in cycles.
//!
//! Source: our own.

use board_terms::TICK_CYCLES;

/// The stamp of the first stroke: the second half of tick 79, when the keyboard's test is over and its end is reported.
pub const FIRST_STROKE: u64 = 79 * TICK_CYCLES + TICK_CYCLES / 2;

/// From one stroke to the next.
pub const STROKE: u64 = 10 * TICK_CYCLES;

/// From the press of a stroke's first key to its release.
pub const HELD: u64 = 5 * TICK_CYCLES;

/// From a stroke's first press to the take of its word.
pub const TAKEN: u64 = 7 * TICK_CYCLES;
