//! The keyboard's processor for C, or any MCS-48: a plain struct of the caller's is the chip, and one call makes one step, with
//! the levels at its pins in, and the latches of its ports and the step's cycles out.
//!
//! This layer is `chip_core` as C sees it. It needs no heap, and a chip is no more than its bytes. It knows no board, no wire
//! and no time: the caller puts the latches onto pins, and waits as many cycles as a step takes. `c/kbd48_chip.h` is the same by
//! hand. Our own.
#![tactic(auto)]

mod calls;
mod chip_at;
mod lending;
