//! How the program ends.

ghost use Rattle.std.specs.Prelude.{◌≡◌};

/// How the program ends: all was printed, or the cause of the one line that was printed instead. With `Write` the sink
/// failed, and what it took is a prefix of the text.
#[derive(Clone, Copy, Debug, PartialEq, Eq, Drop)]
pub enum Exit {
    Done,
    Words,
    Input,
    Timing,
    Read,
    Write,
    Memory,
    Stuck,
}

impl Exit {
    ghost use Rattle.app_words.specs.Exits.{status_of};

    /// The exit status of the process.
    pub fn status(self) -> u8
        ensures status { result ≡ status_of self }
    {
        match self {
            Exit::Done => 0,
            Exit::Words => 2,
            Exit::Input => 3,
            Exit::Timing => 4,
            Exit::Read => 5,
            Exit::Write => 6,
            Exit::Memory => 7,
            Exit::Stuck => 8,
        }
    }
}
