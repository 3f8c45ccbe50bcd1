//! Plans: the key file that types a text on a layout.
//!
//! This layer finds the key of each byte of a text, in the layout, and writes the key file in which these keys are
//! struck one after another and the host takes each word. It knows layouts, the table of words, the strokes of a text
//! and the lines of a key file. It knows no code of the keyboard and no run; that the file is accepted and quiet, and
//! what its log says, are laws of the layers below, which its contract carries. Source: our own.
#![tactic(auto)]

mod fault;
mod keys;
mod lines;
mod planning;
mod stroke;

pub use fault::PlanFault;
pub use planning::plan;
