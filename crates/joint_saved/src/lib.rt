//! A keyboard as bytes, and the keyboard that bytes mean.
//!
//! This layer has the format of a saved keyboard: where each part's bytes are, and which bytes mean no keyboard. It knows
//! no call of a keyboard. Our own.
#![tactic(auto)]

mod loading;
mod saving;
mod unloaded;

pub use loading::{Loaded, load};
pub use saving::{SAVED, save};
pub use unloaded::Unloaded;
