//! Laws of the compiled image: of each step, of the blocks that frame a tick, and of the service that a tick is.
//!
//! This layer knows the processor's definitions, the joint run and the kernel's bytes. It must not know a layout, the
//! controller, a frame, a queue or a log. Its laws hold for every image that has the kernel's bytes outside the
//! places of the layout's tables, and for every reading that the pins can give. The laws that a contract can name
//! are on functions here; those for every board are lemmas, which the layers above cite. Our own.
#![tactic(auto)]

mod parts;
mod steps;
mod ticks;

pub use parts::{heading, looking_at_wires, putting_lights, reading_columns};
pub use steps::{bytes_stay_bytes, every_row};
pub use ticks::{columns_in_a_tick, next_start};
