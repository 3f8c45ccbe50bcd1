//! The line of an item of the log.

ghost use Rattle.std.specs.Prelude.{◌≡◌};
ghost use Rattle.subsystem.specs.Account.{in_tick};
ghost use Rattle.subsystem.specs.Texts.{line_text};

use arrayvec::ArrayVec;
use hex_text::begun;
use host_turn::Stamped;
use pc_tables::item_line;
use run_loop::ItemLine;

/// Items are in this tick.
#[derive(Drop)]
pub(crate) struct InTick {
    pub tick: u32,
}

impl ItemLine for InTick {
    ghost line_of = { λ it stamped. line_text (in_tick it.tick stamped) };

    fn line(&self, stamped: Stamped) -> ArrayVec<u8, 40> {
        begun(&item_line(self.tick, stamped.item))
    }
}
