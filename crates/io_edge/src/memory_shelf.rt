//! A shelf over files in memory.

ghost use Rattle.std.specs.Prelude.{◌≡◌, ◌⊎◌, ℕ, ◌≤◌, Err, Some, IfOk, vec_len};
ghost use Rattle.std.specs.declared.option.Option.{Option};
ghost use Rattle.std.specs.Option.{option_map, option_copied};
ghost use Rattle.io_edge.specs.Faults.{Rose};
ghost use Rattle.io_edge.specs.MemoryShelf.{files_of};
ghost use Rattle.io_edge.specs.Shelf.{Shelved, after_fetch, bytes_under, faults_after, fetched, IsFetch};

use crate::count::is_among;
use crate::shelf::{FetchFault, Shelf};
use std::alloc::Global;
use std::marker::Model;

/// Files in memory, of which chosen calls fail. Of two files of one name the first is meant.
#[derive(Drop)]
pub struct MemShelf {
    files: Vec<(String, Vec<u8>)>,
    fails: Vec<u32>,
    calls: u64,
    faults: u64,
}

impl Model for MemShelf {
    ghost use Rattle.io_edge.specs.MemoryShelf.{HeldFiles, files_of};

    ghost Value = { HeldFiles };

    ghost view = { λ s. record { in_memory = record { files = files_of s.files.items; calls = s.calls; fails = s.fails.items }; faults = s.faults } };
}

impl MemShelf {
    /// A shelf with these files, each a name and its bytes. The calls whose numbers, from 1, are in `fails` fail.
    pub fn new(files: Vec<(String, Vec<u8>)>, fails: Vec<u32>) -> MemShelf
        ensures files { result.in_memory.files ≡ files_of files.items }
        ensures fails { result.in_memory.fails ≡ fails.items }
        ensures calls { result.in_memory.calls ≡ 0 }
        ensures faults { result.faults ≡ 0 }
    {
        MemShelf {
            files,
            fails,
            calls: 0,
            faults: 0,
        }
    }
}

impl Shelf for MemShelf {
    ghost faults = { λ s. s.faults };

    ghost in_memory = { λ s. Some s.in_memory };

    fn fetch(&mut self, alloc: Global, name: &str, max: usize) -> Result<Vec<u8>, FetchFault>
        ensures count { self.old.faults ≤ self.new.faults }
        ensures failed { result ≡ Err FetchFault.Failed → Rose self.old.faults self.new.faults }
        ensures steady { (result ≡ Err FetchFault.Failed) ⊎ (self.new.faults ≡ self.old.faults) }
        ensures size { IfOk result (λ bytes. vec_len bytes ≤ max) }
        ensures kept { Some self.new.in_memory ≡ option_map after_fetch (Some self.old.in_memory) }
        ensures in_memory { IsFetch (fetched self.old.in_memory name.now max) result }
        ensures exact { self.new.faults ≡ faults_after result self.old.faults }
    {
        self.calls = self.calls.saturating_add(1);
        let bytes = if is_among(self.calls, &self.fails) {
            None
        } else {
            file_under(name, &self.files)
        };
        match bytes {
            None => {
                self.faults = self.faults.saturating_add(1);
                Err(FetchFault::Failed)
            }
            Some(bytes) if bytes.len() > max => Err(FetchFault::TooLong),
            Some(bytes) => bytes.to_vec(alloc).map_err(|_| FetchFault::Memory),
        }
    }
}

/// The bytes of the first file with this name.
fn file_under<'a>(name: &str, files: &'a [(String, Vec<u8>)]) -> Option<&'a [u8]>
    ensures { option_copied result ≡ bytes_under name.now (files_of files.now) }
{
    for (known, bytes) in files {
        if known.as_str() == name {
            return Some(bytes.as_slice());
        }
    }
    None
}
