//! What is kept of what happened until the caller takes it.

ghost use Rattle.std.specs.Prelude.{◌≡◌, [], map};
ghost use Rattle.live_board.specs.Heard.{after_next, has_room, heard_all, heard_one, next_of, said_so};
ghost use Rattle.live_board.specs.Passing.{passed_by};

use arrayvec::ArrayVec;
use board_terms::Transfer;
use host_turn::Stamped;
use live_items::{Happened, What};

/// How much is kept.
const MOST: usize = 64;

/// What a caller is handed of what happened.
#[derive(Clone, Copy, Debug, PartialEq, Eq)]
pub enum Next {
    /// This happened next.
    Said(Happened),
    /// So much more happened than was kept. From now on it is kept again.
    Lost(u64),
    /// Nothing happened since.
    Nothing,
}

/// What happened first that the caller hasn't taken yet, at most 64, and how much else after that was lost.
#[derive(Drop)]
pub struct Heard {
    pub items: ArrayVec<Happened, 64>,
    pub lost: u64,
}

impl Heard {
    /// Nothing happened yet.
    pub(crate) fn nothing() -> Heard
        ensures { (result.items.items ≡ []) × (result.lost ≡ 0) }
    {
        Heard {
            items: ArrayVec::new(),
            lost: 0,
        }
    }

    /// The same, of its own.
    pub(crate) fn copied(&self) -> Heard
        ensures { result ≡ self.now }
    {
        let mut items = ArrayVec::new();
        let _ = items.try_extend_from_slice(self.items.as_slice());
        Heard {
            items,
            lost: self.lost,
        }
    }

    /// What the caller is handed next, which is kept no longer.
    pub(crate) fn hand_out(&mut self) -> Next
        ensures next { result ≡ next_of self.old }
        ensures after { self.new ≡ after_next self.old }
    {
        if !self.items.is_empty() {
            return Next::Said(self.items.remove(0));
        }
        let lost = self.lost;
        self.lost = 0;
        if lost == 0 {
            Next::Nothing
        } else {
            Next::Lost(lost)
        }
    }

    /// Whether one more can be kept.
    fn has_room(&self) -> bool
        ensures { result ≡ has_room self.now }
    {
        self.lost == 0 && self.items.len() < MOST
    }

    /// One thing more happens.
    fn add(&mut self, happened: Happened)
        ensures { self.new ≡ heard_one self.old happened }
    {
        if self.has_room() {
            self.items.push(happened);
        } else {
            self.lost = self.lost.saturating_add(1);
        }
    }

    /// The byte that ends if the clock falls has passed, if the clock is low after the step that began at a cycle.
    #[inline(always)]
    pub(crate) fn add_passed(&mut self, at_fall: Option<Transfer>, cycle: u64, clock: bool)
        ensures { self.new ≡ heard_all self.old (passed_by at_fall cycle clock) }
    {
        if let Some(byte) = at_fall {
            if !clock {
                self.add(Happened {
                    cycle,
                    what: What::Passed(byte),
                });
            }
        }
    }

    /// These are said, in order.
    pub(crate) fn add_all(&mut self, items: &[Stamped])
        ensures { self.new ≡ heard_all self.old (map said_so items.now) }
    {
        match items {
            [] => {}
            [said, later @ ..] => {
                self.add(Happened {
                    cycle: said.cycle,
                    what: What::Said(said.item),
                });
                self.add_all(later);
            }
        }
    }
}
