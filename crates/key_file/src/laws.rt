//! A law of key files, the contract of a function that does nothing.

ghost use Rattle.std.specs.Prelude.{◌≡◌, ℕ, List, Ok};
ghost use Rattle.key_file.specs.Accepted.{IsAccepted};
ghost use Rattle.key_file.specs.Histories.{KeyHistory};
ghost use Rattle.key_file.specs.KeyFile.{history_of};
ghost use Rattle.key_file.specs.Described.{Describes};
ghost use Rattle.layout_reader.specs.Layouts.{KeyLayout};

/// Exactly the key files that describe an accepted history are read.
///
/// A file whose lines are of right form and say, in the joint order of the stamps, the edges and the events of the host
/// of an accepted history, and then its end, is read as that history: nothing more is refused. And a file that is read
/// is such a one. That its history is accepted is a clause of `read_history` and of `check_history`.
pub fn described_histories()
    ensures read { (layout : KeyLayout) (text : List ℕ) (history : KeyHistory) → IsAccepted history
        → Describes layout text history → history_of layout text ≡ Ok history }
    ensures described { (layout : KeyLayout) (text : List ℕ) (history : KeyHistory) → history_of layout text ≡ Ok history
        → Describes layout text history }
{}
