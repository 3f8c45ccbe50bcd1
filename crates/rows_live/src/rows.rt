//! The rows of the worked examples of a keyboard that runs as one goes: what is called, and what is so then.

use ctl_core::Port;
use live_board::{Met, Refused, Registers, RunEnd, Stops, Unloaded, What};

/// The cycles of a second.
pub(crate) const SECOND: u64 = 400_000;

/// A run that stops for nothing but its limits.
pub(crate) const NOTHING: Stops = Stops {
    rise: false,
    item: false,
    wires: false,
    counter: None,
};

/// A step that did nothing that was asked for.
pub(crate) const NOTHING_MET: Met = Met {
    rise: false,
    item: false,
    wires: false,
    counter: false,
};

/// A row of an example: a call of this keyboard, or of this one and the other one, with what is so then.
#[derive(Clone, Copy, Drop)]
pub(crate) enum Row {
    /// This keyboard is opened anew, with its power-on test over.
    Ready,
    /// This keyboard is opened anew, over a program that has an illegal opcode as its third byte.
    Sticks,
    /// This one and the other one change places.
    Swap,
    /// The other one is opened anew, as a copy of this one.
    Copies,
    /// The two are in the same cycle.
    Together,
    /// A watched run for so many cycles at most is alike on both, and so is the read of port 60h after it.
    Alike(u64),
    /// A run for so many cycles, watched or not, ends so.
    Run(u64, bool, RunEnd),
    /// A run for so many cycles passes, after at least so many and at most so many.
    Passes(u64, u64, u64),
    /// A watched run for a second ends with a rise.
    Rises,
    /// The same, after at least so many cycles and at most so many.
    RisesIn(u64, u64),
    /// A run for a second that stops for these ends so.
    RunTo(Stops, RunEnd),
    /// A run of so many steps ends after at least so many cycles and at most so many.
    Steps(u64, u64, u64),
    /// A run for a second that stops at the place where the processor is comes there again.
    ComesBack,
    /// The host writes a byte to a port.
    Write(Port, u8),
    /// The host can't write a byte to a port, and this is why.
    NoWrite(Port, u8, Refused),
    /// The host reads this byte from port 60h.
    Read(u8),
    /// The host can't read port 60h, and this is why.
    NoRead(Refused),
    /// The host reads this status.
    Status(u8),
    /// The host reads the status so many times.
    Statuses(u8),
    /// The key at the first place goes down or up.
    Key(bool),
    /// The key at the first place can't go down or up, and this is why.
    NoKey(bool, Refused),
    /// Noise turns round this bit of the next frame.
    Flip(u8),
    /// This happened next.
    Hears(What),
    /// So many items are handed out.
    Items(u8),
    /// So many items were lost.
    Lost(u64),
    /// Nothing happened since.
    Quiet,
    /// The cycle is at least the first of these, and at most the second.
    Cycle(u64, u64),
    /// Whether the interrupt line is up.
    Interrupt(bool),
    /// How often it rose.
    Rose(u64),
    /// The lights.
    Lights(u8),
    /// The controller's registers.
    Shows(Registers),
    /// Looks, between which no cycle passes and the interrupt line stays up.
    Looks,
    /// The byte of the program at a place, 0 to 2,047.
    Program(u16, u8),
    /// The keys of a column.
    Column(u8, u8),
    /// How many edges and how many words wait.
    Waiting(usize, usize),
    /// The levels that the controller drives on clock and data.
    Drives(bool, bool),
    /// A saved keyboard is loaded as it was, and goes on as this one does, so many times.
    Loads(u8),
    /// A saved keyboard without its first byte is refused for its length.
    Short,
    /// A saved keyboard with another byte at this place is refused, and this is why.
    Refuses(usize, u8, Unloaded),
}
