//! One file from the shelf, within the limit of its kind.

ghost use Rattle.std.specs.Prelude.{◌≡◌, ◌⊎◌, ◌≤◌, option_map, length, Err, IfOk};
ghost use Rattle.io_edge.specs.Faults.{Rose};
ghost use Rattle.io_edge.specs.Shelf.{after_fetch};
ghost use Rattle.app_answers.specs.Fetching.{MayGive};
ghost use Rattle.app_words.specs.Kinds.{limit_of};

use app_words::{Kind, Refusal};
use io_edge::{FetchFault, Shelf};
use std::alloc::Global;

/// Fetches the file of this name, which may have as many bytes as its kind allows. It is one fetch.
pub fn fetch_file<F: Shelf>(
    alloc: Global,
    shelf: &mut F,
    name: &str,
    kind: Kind,
) -> Result<Vec<u8>, Refusal>
    ensures gives { MayGive kind name.now (F.in_memory shelf.old) result }
    ensures within { IfOk result (λ file. length file.items ≤ limit_of kind) }
    ensures fetched { F.in_memory shelf.new ≡ option_map after_fetch (F.in_memory shelf.old) }
    ensures read { result ≡ Err Refusal.Read → Rose (F.faults shelf.old) (F.faults shelf.new) }
    ensures steady { (result ≡ Err Refusal.Read) ⊎ (F.faults shelf.new ≡ F.faults shelf.old) }
{
    match shelf.fetch(alloc, name, kind.limit()) {
        Ok(file) => Ok(file),
        Err(FetchFault::Failed) => Err(Refusal::Read),
        Err(FetchFault::TooLong) => Err(Refusal::TooLong(kind)),
        Err(FetchFault::Memory) => Err(Refusal::Memory),
    }
}
