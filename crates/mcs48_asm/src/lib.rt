//! An assembler for the MCS-48: from a text to the program memory that it fills, or to its first fault.
//!
//! This layer knows characters, words, lines, the texts of the instructions, names and places. It knows no register, no
//! flag and no cycle: what an instruction does is another layer's. The texts are those of the MCS-48 Family User's
//! Manual, instruction set; the form of lines, of numbers and of ORG, DB and EQU is our own.
#![tactic(auto)]

mod argument;
mod assembling;
mod characters;
mod examples;
mod fault;
mod faults;
mod filling;
mod flaw;
mod laws;
mod line;
mod meaning;
mod memory;
mod names;
mod operands;
mod pieces;
mod places;
mod rows;
mod statement;
mod text_hash;
mod values;
mod words;

pub use assembling::assemble;
pub use examples::worked_examples;
pub use fault::AsmFault;
pub use laws::large_numbers;
