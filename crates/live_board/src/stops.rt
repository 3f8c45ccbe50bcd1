//! What a run may stop for.

ghost use Rattle.std.specs.Prelude.{◌≡◌};
ghost use Rattle.live_board.specs.Running.{at_rise, counter_met, is_met, item_met, wires_met};

use board_terms::Lines;
use host_turn::Stamped;

/// What a run is to stop for, beside its limits: a rise of the interrupt line; something that is said; a wire that is
/// otherwise after a step than before; and the processor at a place of the program, 0 to 2,047.
#[derive(Clone, Copy, Debug, PartialEq, Eq, Drop)]
pub struct Stops {
    pub rise: bool,
    pub item: bool,
    pub wires: bool,
    pub counter: Option<u16>,
}

/// Which of these a step did.
#[derive(Clone, Copy, Debug, PartialEq, Eq, Drop)]
pub struct Met {
    pub rise: bool,
    pub item: bool,
    pub wires: bool,
    pub counter: bool,
}

impl Stops {
    /// To stop for nothing, but at a rise of the interrupt line if it is watched.
    pub fn at_rise(watched: bool) -> Stops
        ensures { result ≡ at_rise watched }
    {
        Stops {
            rise: watched,
            item: false,
            wires: false,
            counter: None,
        }
    }
}

impl Met {
    /// Whether a step did any of these.
    pub(crate) fn is_any(&self) -> bool
        ensures { result ≡ is_met self.now }
    {
        self.rise || self.item || self.wires || self.counter
    }
}

/// Whether a wire is otherwise.
pub(crate) fn wires_met(before: Lines, after: Lines) -> bool
    ensures { result ≡ wires_met before after }
{
    before.clk != after.clk || before.dat != after.dat
}

/// Whether something is said.
pub(crate) fn item_met(items: &[Stamped]) -> bool
    ensures { result ≡ item_met items.now }
{
    match items {
        [] => false,
        [_, ..] => true,
    }
}

/// Whether the counter is at the place.
pub(crate) fn counter_met(place: Option<u16>, counter: u16) -> bool
    ensures { result ≡ counter_met place counter }
{
    match place {
        Some(place) => counter % 2048 == place,
        None => false,
    }
}
