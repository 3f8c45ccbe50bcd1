//! Calls of the whole program with what no command line gives it: sinks that take a part of what is put or fail, and probes
//! that the caller arms. All other calls are worked rows, which are run over the program itself.
#![tactic(auto)]

#[cfg(test)]
mod calls;
#[cfg(test)]
mod probing;
#[cfg(test)]
mod putting;
