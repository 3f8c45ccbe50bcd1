//! A file that breaks off while it is read, on a file system that has no other.

use io_edge::{FetchFault, FileShelf, Shelf};
use std::alloc::Allocator;
use std::fs::{Files, Metadata, OpenFile, OpenOptions};
use std::io::{self, Read, Seek, SeekFrom, Write};

/// A file that gives three bytes, and then an error.
#[derive(Drop)]
struct Broken {
    reads: u8,
}

/// What is never asked of it.
fn never<T>() -> io::Result<T> {
    Err(io::Error::from(io::ErrorKind::Unsupported))
}

impl Read for Broken {
    fn read(&mut self, buf: &mut [u8]) -> io::Result<usize> {
        self.reads = self.reads.saturating_add(1);
        if self.reads > 1 {
            return Err(io::Error::from(io::ErrorKind::Other));
        }
        Ok(buf.len().min(3))
    }
}

impl Write for Broken {
    fn write(&mut self, _buf: &[u8]) -> io::Result<usize> {
        Err(io::Error::from(io::ErrorKind::Unsupported))
    }

    fn flush(&mut self) -> io::Result<()> {
        never()
    }
}

impl Seek for Broken {
    fn seek(&mut self, _to: SeekFrom) -> io::Result<u64> {
        never()
    }
}

impl OpenFile for Broken {
    fn metadata(&self) -> io::Result<Metadata> {
        never()
    }

    fn set_len(&self, _size: u64) -> io::Result<()> {
        never()
    }

    fn sync_all(&self) -> io::Result<()> {
        never()
    }

    fn sync_data(&self) -> io::Result<()> {
        never()
    }
}

/// A file system that opens such a file, whatever its name.
#[derive(Drop)]
struct Breaking;

impl Files for Breaking {
    type File = Broken;

    type Dir = Broken;

    fn open_file(&self, _how: &OpenOptions, _path: &str) -> io::Result<Broken> {
        Ok(Broken { reads: 0 })
    }

    fn open_dir(&self, _path: &str) -> io::Result<Broken> {
        never()
    }

    fn metadata(&self, _path: &str) -> io::Result<Metadata> {
        never()
    }

    fn symlink_metadata(&self, _path: &str) -> io::Result<Metadata> {
        never()
    }

    fn copy(&self, _from: &str, _to: &str) -> io::Result<u64> {
        never()
    }

    fn rename(&self, _from: &str, _to: &str) -> io::Result<()> {
        never()
    }

    fn remove_file(&self, _path: &str) -> io::Result<()> {
        never()
    }

    fn create_dir(&self, _path: &str) -> io::Result<()> {
        never()
    }

    fn remove_dir(&self, _path: &str) -> io::Result<()> {
        never()
    }

    fn remove_dir_all<B: Allocator>(&self, _alloc: B, _path: &str) -> io::Result<()> {
        never()
    }
}

#[test]
fn a_file_that_breaks_off_is_not_taken_as_whole(rt: HostRuntime) {
    match FileShelf::new(&Breaking).fetch(rt.alloc(), "any", 9) {
        Err(fault) => assert_eq!(rt; fault, FetchFault::Failed),
        Ok(bytes) => assert_eq!(rt; bytes.len(), 9, "an error was taken as the end"),
    }
}
