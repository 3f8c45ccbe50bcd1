//! What a command answers of its files: each file fetched and judged, and what a command that makes no run says of it.
//!
//! This layer knows the forms of files, one instruction after another from reset, certificates, plans of a text, captures
//! of the two wires, and what INT 09h says of keyboard bytes; and how a text is said, or broken off. It knows no run of the
//! keyboard's board and no order of files. Source: our own.
#![tactic(auto)]

mod capturing;
mod carrying;
mod certifying;
mod end_state;
mod feeding;
mod fetching;
mod judging;
mod law;
mod spelling;
mod spoken;
mod stepping;

pub use capturing::{say_capture, type_capture};
pub use carrying::carry_out;
pub use certifying::certify;
pub use end_state::put_end;
pub use feeding::feed;
pub use fetching::fetch_file;
pub use judging::{events_in, history_in, image_in, layout_in};
pub use law::{each_key_gives_its_scan_code, list_and_asm_are_inverse};
pub use spelling::spell;
pub use spoken::{Spoken, to_say};
