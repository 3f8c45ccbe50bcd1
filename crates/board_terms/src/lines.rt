//! The two wires.

/// The levels of the clock wire and the data wire: `true` is high. A wire is low if a side pulls it. Source: PC/AT
/// Technical Reference, keyboard interface.
#[derive(Clone, Copy, Debug, PartialEq, Eq, Default)]
pub struct Lines {
    /// The clock's level.
    pub clk: bool,
    /// The data wire's level.
    pub dat: bool,
}

/// Both wires are high, as they are if nobody pulls them.
pub const HIGH: Lines = Lines {
    clk: true,
    dat: true,
};
