//! The first fault: which item of a file, and which rule, a refusal names.
//!
//! This layer is definitions alone, in `specs/`. It knows items in an order and rules in an order, each item judged
//! with what the items before it came to. It knows no file and no rule: what the items of a form of file are (lines,
//! entries), and which rules it has, is up to the layers above. Source: our own.
#![tactic(auto)]

mod law;

pub use law::an_item_is_refused_after_those_before_it;
