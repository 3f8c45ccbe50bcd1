//! Tests of keyboards that other programs run, of what the program can't show: one that runs as one goes, call by call, and
//! the model's, tick by tick; and a file that breaks off while it is read.
//!
//! They are in one crate, so that no layer is proved twice for its tests. Expected values were worked out by hand from the
//! rules in `docs/`, or come from the manuals; none is the program's own output.
#![tactic(auto)]

#[cfg(test)]
mod breaking_off;
#[cfg(test)]
mod calling;
#[cfg(test)]
mod live;
#[cfg(test)]
mod model;
#[cfg(test)]
mod overrun;
#[cfg(test)]
mod playing;
#[cfg(test)]
mod rates;
#[cfg(test)]
mod rows;
#[cfg(test)]
mod what_bytes_leave;
