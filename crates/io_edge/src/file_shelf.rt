//! The shelf of real files.

ghost use Rattle.std.specs.Prelude.{◌≡◌, ◌⊎◌, ℕ, ◌+◌, ◌-◌, ◌<◌, ◌≤◌, ◌++◌, length, Err, None, IfOk, IfSome, IsErr, OnOk, vec_len};
ghost use Rattle.std.specs.declared.option.Option.{Option};
ghost use Rattle.std.specs.Option.{option_map};
ghost use Rattle.std.specs.Io.KnownBytes.{IsAtEnd};
ghost use Rattle.io_edge.specs.Faults.{Rose};
ghost use Rattle.io_edge.specs.Reading.{GaveAtMost, GivesFile, NoneLost};
ghost use Rattle.io_edge.specs.Shelf.{Shelved, after_fetch, faults_after, fetched, IsFetch};

use crate::shelf::{FetchFault, Shelf};
use std::alloc::Global;
use std::fs::{self, Files};
use std::io::{self, Read};
use std::marker::Model;

/// The files of a runtime, each named by its path. Each failure to open or to read one raises the count of faults.
#[derive(Drop)]
pub struct FileShelf<'a, R: Files> {
    rt: &'a R,
    faults: u64,
}

impl<'a, R: Files> Model for FileShelf<'a, R> {
    ghost use Rattle.std.specs.Prelude.{ℕ};

    ghost Value = { ℕ };

    ghost view = { λ s. s.faults };
}

impl<'a, R: Files> FileShelf<'a, R> {
    /// The files that this runtime reaches.
    pub fn new(rt: &'a R) -> FileShelf<'a, R>
        ensures faults { result ≡ 0 }
    {
        FileShelf { rt, faults: 0 }
    }
}

impl<'a, R: Files> Shelf for FileShelf<'a, R> {
    ghost faults = { λ s. s };

    ghost in_memory = { λ s. None };

    fn fetch(&mut self, alloc: Global, name: &str, max: usize) -> Result<Vec<u8>, FetchFault>
        ensures count { self.old ≤ self.new }
        ensures failed { result ≡ Err FetchFault.Failed → Rose self.old self.new }
        ensures steady { (result ≡ Err FetchFault.Failed) ⊎ (self.new ≡ self.old) }
        ensures size { IfOk result (λ bytes. vec_len bytes ≤ max) }
        ensures kept { None ≡ option_map after_fetch None }
        ensures in_memory { IfSome None (λ shelf. IsFetch (fetched shelf name.now max) result) }
        ensures exact { self.new ≡ faults_after result self.old }
    {
        let fetched = read_opened(fs::open(self.rt, name), alloc, max);
        if let Err(FetchFault::Failed) = fetched {
            self.faults = self.faults.saturating_add(1);
        }
        fetched
    }
}

/// What an opened file gives to its end, at most `max` bytes. One that couldn't be opened is a failure.
fn read_opened<F: Read + Drop>(
    opened: io::Result<F>,
    alloc: Global,
    max: usize,
) -> Result<Vec<u8>, FetchFault>
    ensures size { IfOk result (λ bytes. vec_len bytes ≤ max) }
    ensures missing { IsErr opened → result ≡ Err FetchFault.Failed }
    ensures gives { IfOk opened (λ file. GivesFile (F.remaining file) max result) }
{
    let mut file = opened.map_err(|_| FetchFault::Failed)?;
    read_all(&mut file, alloc, max)
}

/// What the reader gives up to its end, at most `max` bytes. However long it goes on, it gives up no more than `max`
/// bytes and one.
fn read_all<F: Read>(reader: &mut F, alloc: Global, max: usize) -> Result<Vec<u8>, FetchFault>
    ensures size { IfOk result (λ bytes. vec_len bytes ≤ max) }
    ensures gives { GivesFile (F.remaining reader.old) max result }
    ensures spent { GaveAtMost (max + 1) (F.remaining reader.old) (F.remaining reader.new) }
{
    let mut bytes = Vec::new(alloc);
    for _turn in 0..u64::MAX {
        if read_some(reader, &mut bytes, max)? == 0 {
            return Ok(bytes);
        }
    }
    // No file has so many bytes.
    Err(FetchFault::Failed)
}

/// Reads once, and at most one byte more than `max` allows. Answers how many bytes came, which is 0 at the end.
fn read_some<F: Read>(reader: &mut F, bytes: &mut Vec<u8>, max: usize) -> Result<usize, FetchFault>
    requires { vec_len bytes.old ≤ max }
    ensures size { OnOk result (vec_len bytes.new ≤ max) }
    ensures read { OnOk result (NoneLost (F.remaining reader.old) bytes.old.items (F.remaining reader.new) bytes.new.items) }
    ensures end { IfOk result (λ count. count ≡ 0 → IsAtEnd (F.remaining reader.new)) }
    ensures spent { GaveAtMost (max - vec_len bytes.old + 1) (F.remaining reader.old) (F.remaining reader.new) }
    ensures long { result ≡ Err FetchFault.TooLong → IfSome (F.remaining reader.old) (λ left. max < length (bytes.old.items ++ left)) }
{
    let mut piece = [0; 4096];
    let left = max - bytes.len();
    let size = left.min(piece.len() - 1) + 1;
    let count = reader
        .read(&mut piece[..size])
        .map_err(|_| FetchFault::Failed)?;
    if count > left {
        return Err(FetchFault::TooLong);
    }
    bytes
        .extend_from_slice(&piece[..count])
        .map_err(|_| FetchFault::Memory)?;
    Ok(count)
}
