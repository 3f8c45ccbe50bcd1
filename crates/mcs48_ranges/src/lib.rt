//! The ranges that the processor's parts keep: bytes stay bytes, and the counter, the prescaler and the stack pointer
//! keep their bits, through every step of any program of bytes.
//!
//! This layer is definitions in `specs/` and lemmas in `proofs/`: what a row's operands are, and what an instruction,
//! the timer and an interrupt's entry leave in each part. It knows the opcode table and the processor's definitions,
//! and no program and no board. The law of a step is a contract in `law_fw_logic`.
#![tactic(auto)]
