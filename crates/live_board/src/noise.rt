//! Noise on the wires.

ghost use Rattle.board_terms.specs.declared.event.HostAct.TheVariants.{Flip};
ghost use Rattle.live_board.specs.Calls.{IsActed};
ghost use Rattle.live_board.specs.Heard.{IsKeptLog};
ghost use Rattle.live_board.specs.Onward.{IsStepped};

use crate::keyboard::Keyboard;
use crate::refused::Refused;
use board_terms::HostAct;

impl Keyboard {
    /// Noise turns round a bit of the next frame that the keyboard begins: a data bit, 1 to 8, or the parity, 9. Another
    /// call before that frame replaces it. One joint step. It is what `flip` of a key file does.
    pub fn flip(&mut self, bit: u8) -> Result<(), Refused>
        ensures acted { IsActed (Flip bit) self.old result self.new }
        ensures log_kept { IsKeptLog (Flip bit) self.old result self.new }
        ensures stepped { IsStepped (Flip bit) self.old result self.new }
    {
        self.parts.act(HostAct::Flip(bit))
    }
}
