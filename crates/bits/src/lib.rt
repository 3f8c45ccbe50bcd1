//! Bits of a byte: whether one is set, and the byte with one set, cleared or flipped.
//!
//! This layer is definitions in `specs/`, so that the processor's bytes, frames, the status and the command byte of the
//! controller and the bytes that INT 09h keeps are spoken of by the same words, and lemmas in `proofs/`: facts of small
//! numbers, by trying each. It knows no device and no name of a bit.
#![tactic(auto)]
