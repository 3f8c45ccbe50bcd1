//! The keyboard for C: one export a call, behind a handle of one pointer.
//!
//! This layer is `live_board` as C sees it, and opens it over a layout's text or a HEX text. It has no condition that
//! C could break but those of the pointers: each call answers a status. `c/kbd48.h` is the same by hand. Source: our
//! own.
#![tactic(auto)]

mod calls;
mod copying;
mod going;
mod handle;
mod helping;
mod items;
mod keyed;
mod looks;
mod names;
mod noise;
mod opening;
mod pointer;
mod power;
mod queue_saving;
mod queueing;
mod ready;
mod saving;
mod status;
mod stopping;
mod version;
mod views;
