//! A keyboard's state, to be kept and gone back to.

ghost use Rattle.std.specs.Prelude.{◌≡◌, Some, is_some};
ghost use Rattle.board_terms.specs.Columns.{keys_in};
ghost use Rattle.chip_core.specs.Saves.{loaded, saved_of};
ghost use Rattle.kbd_half.specs.Saves.{gone_back};

use crate::keyboard::KbdHalf;
use board_terms::Matrix;
use chip_core::Saved;

/// The state of a keyboard but for its program, in one form for all machines: the processor's bytes and its data memory; and
/// the rows of each column of the matrix, of which bit k is row k, 0 for down.
#[repr(C)]
#[derive(Drop)]
pub struct SavedKeyboard {
    pub chip: Saved,
    pub columns: [u8; 12],
}

impl KbdHalf {
    /// Writes the keyboard's state. Loaded again it is the same.
    pub fn save(&self, saved: &mut SavedKeyboard)
        ensures chip { saved.new.chip ≡ saved_of self.now.chip }
        ensures keys { keys_in saved.new.columns ≡ self.now.matrix }
        ensures loaded { loaded saved.new.chip ≡ Some self.now.chip.mcu }
    {
        self.chip.save(&mut saved.chip);
        saved.columns = self.matrix.columns();
    }

    /// Goes to this state; the program stays. Answers whether it is one. A program counter from 4,096 on, a prescaler from
    /// 32 on, and a status byte without bit 3 are refused, since no processor has them; then nothing has changed. All other
    /// bytes are taken: a truth value that isn't 1 for 0, a way of counting above 2 for 2, and any rows.
    pub fn load(&mut self, saved: &SavedKeyboard) -> bool
        ensures keyboard { self.new ≡ gone_back (loaded saved.now.chip) (keys_in saved.now.columns) self.old }
        ensures done { result ≡ is_some (loaded saved.now.chip) }
    {
        let done = self.chip.load(&saved.chip);
        if done {
            self.matrix = Matrix::of_columns(saved.columns);
        }
        done
    }
}
