//! The layout: which key is at which place of the matrix, what each key sends, and the rate at power-on.
//!
//! This layer reads a layout document (TOML, as the crate `toml` reads it) and gives its layout, or its first fault. It
//! knows the document's fields, their order of judgement, keys by name and places by column and row. It knows no
//! firmware, no history and no time. Source: our own; the names and codes are those of the PC/AT's 84 keys.
#![tactic(auto)]

mod cause;
mod entry;
mod fault;
mod fields;
mod layout;
mod reading;
mod sample;
mod top_level;

pub use entry::Entry;
pub use fault::LayoutFault;
pub use layout::Layout;
pub use reading::read_layout;
pub use sample::us84_layout;
