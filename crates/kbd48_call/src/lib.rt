//! The whole program as one call, for a page or for C: words and files in, text and exit out.
//!
//! This layer hands the top call a shelf, a sink and four new probes in memory. It has no condition that a caller could
//! break but those of the pointers. Source: our own.
#![tactic(auto)]

mod bad_pieces;
mod calling;
mod pieces;
