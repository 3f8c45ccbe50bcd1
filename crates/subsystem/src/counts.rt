//! Counts of what a run says.

ghost use Rattle.std.specs.Prelude.{◌≡◌, ◌<◌, ◌≤◌, ◌^◌, ◌∷◌, [], length, map};
ghost use Rattle.subsystem.specs.Account.{in_tick};
ghost use Rattle.subsystem.specs.Counts.{none_counted, with_lines};

use host_turn::Stamped;
use model_link::LogLine;
use pc_tables::Item;

/// How many bytes reached port 60h, how many words into the buffer of INT 09h, and how many beeps there were.
#[derive(Clone, Copy, Debug, PartialEq, Eq)]
pub struct Counts {
    pub ports: u64,
    pub words: u64,
    pub beeps: u64,
}

impl Counts {
    /// Nothing is counted.
    pub fn none() -> Counts
        ensures { result ≡ none_counted }
    {
        Counts {
            ports: 0,
            words: 0,
            beeps: 0,
        }
    }

    /// The counts with one line more.
    pub fn with(self, line: LogLine) -> Counts
        requires ports { self.ports < 2 ^ 63 }
        requires words { self.words < 2 ^ 63 }
        requires beeps { self.beeps < 2 ^ 63 }
        ensures { result ≡ with_lines self (line ∷ []) }
    {
        let mut counts = self;
        match line.item {
            Item::Port(_) => counts.ports += 1,
            Item::Word(_) => counts.words += 1,
            Item::Beep => counts.beeps += 1,
            _ => {}
        }
        counts
    }

    /// The counts with the lines of more items, in this tick.
    pub(crate) fn with_items(self, tick: u32, items: &[Stamped]) -> Counts
        requires ports { self.ports < 2 ^ 40 }
        requires words { self.words < 2 ^ 40 }
        requires beeps { self.beeps < 2 ^ 40 }
        requires few { length items.now ≤ 16 }
        ensures { result ≡ with_lines self (map (in_tick tick) items.now) }
    {
        let mut counts = self;
        for stamped in items {
            let line = LogLine {
                tick,
                item: stamped.item,
            };
            counts = counts.with(line);
        }
        counts
    }
}
