//! A keyboard that runs as one goes: keys and port accesses go in as they happen, and bytes, the interrupt line and the
//! lights come out.
//!
//! This layer is the joint machine, driven by calls in place of a history that is known beforehand. What a call adds
//! is at the end of the past (`specs/Pasts`), and the machine is always at the state of the joint run of that past
//! (`specs/States`). It knows no layout and no model. Source: our own.
#![tactic(auto)]

mod adding;
mod answers;
mod going;
mod heard;
mod irq;
mod keyboard;
mod law;
mod looks;
mod noise;
mod parts;
mod passing;
mod ran;
mod refused;
mod saving;
mod sides;
mod stops;

pub use heard::Next;
pub use joint_saved::{SAVED, Unloaded};
pub use keyboard::Keyboard;
pub use law::stories_grow_at_end;
pub use live_items::{Happened, What};
pub use looks::Registers;
pub use parts::LAST_CYCLE;
pub use ran::{Ran, RunEnd};
pub use refused::Refused;
pub use sides::Sides;
pub use stops::{Met, Stops};
