//! The two ports and the input buffer behind them.

/// A port that the host writes: data to 60h, commands to 64h.
#[derive(Clone, Copy, Debug, PartialEq, Eq, Drop)]
pub enum Port {
    P60,
    P64,
}

/// A byte in the input buffer, and the port that it was written to.
#[derive(Clone, Copy, Debug, PartialEq, Eq, Drop)]
pub struct Input {
    pub port: Port,
    pub byte: u8,
}

/// A write met a full input buffer and changed nothing; with the status, as a read of 64h gives it.
#[derive(Clone, Copy, Debug, PartialEq, Eq, Drop)]
pub struct InputFull {
    pub status: u8,
}
