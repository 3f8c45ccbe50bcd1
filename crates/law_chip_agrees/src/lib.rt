//! A chip that is given the levels of the keyboard's board is the processor of that board's run.
//!
//! This layer is laws alone, over `chip_core` and the joint run. Our own.
#![tactic(auto)]

mod law;

pub use law::chip_is_the_boards;
