//! Where the program meets its surroundings: files by name, and a sink for the text.
//!
//! This layer knows bytes and names. It knows nothing of what the bytes mean. A file or a stream fails as it likes, so
//! each object counts its faults, and a failure is answered only if the count rose. What a shelf holds and what a
//! sink has taken are shown by the objects in memory alone: real files and streams show nothing of content.
//!
//! For other programs: `MemSink::short`. The repository's own programs don't call it.
#![tactic(auto)]

mod count;
mod drop_sink;
mod file_shelf;
mod memory_shelf;
mod memory_sink;
mod saying;
mod shelf;
mod sink;
mod stream_sink;

pub use drop_sink::DropSink;
pub use file_shelf::FileShelf;
pub use memory_shelf::MemShelf;
pub use memory_sink::MemSink;
pub use saying::{put_all, say};
pub use shelf::{FetchFault, Shelf};
pub use sink::{Sink, SinkFault};
pub use stream_sink::StreamSink;
