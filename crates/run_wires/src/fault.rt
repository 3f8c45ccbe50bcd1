//! Why a trace isn't whole.

use thiserror::Error;

/// Why a trace isn't whole.
#[derive(Clone, Copy, Debug, PartialEq, Eq, Drop, Error)]
pub enum TraceFault {
    /// A put failed.
    #[error("the sink failed")]
    Write,
    /// There is no memory.
    #[error("out of memory")]
    Memory,
}
