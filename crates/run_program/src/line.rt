//! The line of an item that has a stamp.

ghost use Rattle.run_program.specs.Texts.{line_text};

use crate::reporting::ByStamp;
use arrayvec::ArrayVec;
use board_terms::STAMP_0;
use hex_text::{append, begun};
use host_turn::Stamped;
use pc_tables::item_line;
use run_loop::ItemLine;

impl ItemLine for ByStamp {
    ghost line_of = { λ it. line_text };

    /// Its cycle as a stamp in decimal, which begins with a minus before stamp 0, a space, the item's text, LF.
    fn line(&self, stamped: Stamped) -> ArrayVec<u8, 40> {
        if stamped.cycle < STAMP_0 {
            let before = STAMP_0 - stamped.cycle;
            let mut line = begun(b"-");
            append(&mut line, &item_line(before as u32, stamped.item));
            return line;
        }
        let stamp = stamped.cycle - STAMP_0;
        begun(&item_line(stamp as u32, stamped.item))
    }
}
