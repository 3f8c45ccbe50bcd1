//! A joint machine as bytes, and the machine that bytes mean.
//!
//! This layer has a table of bytes for each part but the processor: the controller with its end of the link, INT 09h, the
//! keys, and what happened. Each part is read from what was written of it, and bytes that mean no part are refused. It
//! knows no file and no call of a keyboard. Our own.
#![tactic(auto)]

mod items;
mod link;
mod lists;
mod side;

pub use items::{push_items, take_items, what_kind, what_value};
pub use link::{link_bytes, link_in};
pub use lists::{have_places, push_edges, push_words, take_edges, take_words};
pub use side::{controller_bytes, controller_in, flags_in, side_bytes, side_in};
