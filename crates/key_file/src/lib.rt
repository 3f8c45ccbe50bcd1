//! Key files: which keys go down and up, and what the host does, each at its stamp.
//!
//! This layer judges a key file for a layout, and gives its history, or its first fault. A history is kept in memory, or
//! its events are handed out one after another from the file's own bytes, which takes no memory; a feed is either. It
//! knows lines, stamps, the names of keys by the layout, and the rules by which a history is accepted. It knows no code,
//! no wire and no run. Source: our own.
#![tactic(auto)]

mod brief;
mod byte_feed;
mod checking;
mod event;
mod fault;
mod feed;
mod history;
mod laws;
mod line;
mod list_feed;
mod reading;
mod rule;
mod rules;
mod word;

pub use byte_feed::ByteFeed;
pub use checking::check_history;
pub use fault::{FileFault, KeyFault};
pub use feed::Feed;
pub use history::History;
pub use laws::described_histories;
pub use list_feed::ListFeed;
pub use reading::read_history;
