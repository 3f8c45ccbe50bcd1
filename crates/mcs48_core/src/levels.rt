//! The levels at the pins.

/// The levels at the processor's pins in one step: the eight pins of port 1, of port 2 and of the bus, pin k as bit
/// k, and T0, T1 and INT, each true if it is high.
#[derive(Clone, Copy, Debug, PartialEq, Eq, Drop)]
pub struct Pins {
    pub p1: u8,
    pub p2: u8,
    pub bus: u8,
    pub t0: bool,
    pub t1: bool,
    pub int_pin: bool,
}

/// All pins are high: nothing outside pulls one.
pub const ALL_HIGH: Pins = Pins {
    p1: 0xff,
    p2: 0xff,
    bus: 0xff,
    t0: true,
    t1: true,
    int_pin: true,
};
