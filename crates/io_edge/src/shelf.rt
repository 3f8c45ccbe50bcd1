//! Files under names.

ghost use Rattle.std.specs.Prelude.{◌≡◌, ◌⊎◌, ℕ, ◌≤◌, Err, IfOk, IfSome, vec_len};
ghost use Rattle.std.specs.declared.option.Option.{Option};
ghost use Rattle.std.specs.Option.{option_map};
ghost use Rattle.io_edge.specs.Faults.{Rose};
ghost use Rattle.io_edge.specs.Shelf.{Shelved, after_fetch, fetched, IsFetch};

use std::alloc::Global;
use thiserror::Error;

/// Why a fetch gave no bytes.
#[derive(Clone, Copy, Debug, PartialEq, Eq, Drop, Error)]
pub enum FetchFault {
    /// There is no file of this name, or it couldn't be read.
    #[error("the shelf failed")]
    Failed,
    /// The file has more bytes than were asked for at most.
    #[error("the file is too long")]
    TooLong,
    /// There is no memory for its bytes.
    #[error("out of memory")]
    Memory,
}

/// Files under names. A shelf counts its faults: the count never falls, and rises only if a fetch fails. A shelf in
/// memory also shows its files, how many calls it has had, and which numbers of calls fail.
pub trait Shelf {
    ghost faults: { Self → ℕ };

    ghost in_memory: { Self → Option Shelved };

    /// The bytes under the name, at most `max` of them. It counts as one call whatever it answers.
    fn fetch(&mut self, alloc: Global, name: &str, max: usize) -> Result<Vec<u8>, FetchFault>
        ensures count { faults self.old ≤ faults self.new }
        ensures failed { result ≡ Err FetchFault.Failed → Rose (faults self.old) (faults self.new) }
        ensures steady { (result ≡ Err FetchFault.Failed) ⊎ (faults self.new ≡ faults self.old) }
        ensures size { IfOk result (λ bytes. vec_len bytes ≤ max) }
        ensures kept { in_memory self.new ≡ option_map after_fetch (in_memory self.old) }
        ensures in_memory { IfSome (in_memory self.old) (λ shelf. IsFetch (fetched shelf name.now max) result) };
}
