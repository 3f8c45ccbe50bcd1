//! Certificates of time bounds: a text that gives places of a program a bound each, and says with it how many machine
//! cycles the processor takes at most from such a place to the target.
//!
//! This layer knows the text of a certificate, the rows of the opcode table, and what a step of the processor does to
//! the program counter and to the eight registers of bank 0. It knows no board: whatever the pins, the memory and the
//! flags hold, the bounds of a certificate without a fault hold. The certificate and its faults are our own.
#![tactic(auto)]

mod bound;
mod certificate;
mod checking;
mod examples;
mod falling;
mod fault;
mod judging;
mod law;
mod lines;
mod reading;
mod rows;

pub use checking::{Proved, check_cert};
pub use examples::worked_certificates;
pub use fault::CertFault;
pub use law::{certificates_follow_one_another, what_rows_do_to_registers};
