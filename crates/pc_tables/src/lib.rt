//! The tables of the PC: its 84 keys, the words that INT 09h enters for them, and the texts of the items of a log.
//!
//! This layer is the key table of the PC/AT Technical Reference (the keyboard's codes, and the scan codes after the
//! controller's translation), a word table after that of the BIOS (our own), and the spelling of the log (our own).
//! It knows names, codes, words and texts. It knows no state: what a key or a byte does is up to the layers above.
//!
//! For other programs: `item_text`. The repository's own programs write an item by `item_line`.
#![tactic(auto)]

mod item;
mod key;
mod key_table;
mod word_table;
mod words;

pub use item::{Item, item_line, item_text, push_item};
pub use key::{Key, code_of, key_named, key_spelled, name_of, scan_of};
pub use words::{WordRow, letter_on, word_row};
