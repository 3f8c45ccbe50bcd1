//! A writer that takes a byte at a time, and the shelf and the sinks in memory.

use io_edge::{DropSink, FetchFault, MemShelf, MemSink, Shelf, Sink, SinkFault, StreamSink, say};
use std::alloc::{AllocError, Global};
use std::io::{self, Write};
use std::test::Fail;

/// Whether a fetch of at most so many bytes answers this.
fn fetches(
    alloc: Global,
    shelf: &mut MemShelf,
    name: &str,
    most: usize,
    answer: Result<&[u8], FetchFault>,
) -> bool {
    match (shelf.fetch(alloc, name, most), answer) {
        (Ok(given), Ok(bytes)) => given.as_slice() == bytes,
        (Err(given), Err(fault)) => given == fault,
        (Ok(_), Err(_)) | (Err(_), Ok(_)) => false,
    }
}

/// Whether puts of these pieces, one after another, answer this.
fn puts<K: Sink>(sink: &mut K, pieces: &[(&[u8], Result<usize, SinkFault>)]) -> bool {
    for (piece, answer) in pieces {
        if piece.is_empty() || sink.put(piece) != *answer {
            return false;
        }
    }
    true
}

/// A writer that takes one byte at a time.
#[derive(Drop)]
struct Slow {
    taken: Vec<u8>,
}

impl Write for Slow {
    fn write(&mut self, buf: &[u8]) -> io::Result<usize> {
        match buf {
            [] => Ok(0),
            [first, ..] => {
                self.taken.push(*first)?;
                Ok(1)
            }
        }
    }

    fn flush(&mut self) -> io::Result<()> {
        Ok(())
    }
}

#[test]
fn a_put_answers_what_the_writer_took(rt: HostRuntime) -> Result<(), Fail> {
    let text = b"64 port AA\n";
    let mut slow = Slow {
        taken: Vec::new(rt.alloc()),
    };
    let mut sink = StreamSink::new(&mut slow);
    for start in 0..text.len() {
        assert!(rt; sink.put(&text[start..]) == Ok(1));
    }
    drop(sink);
    assert!(rt; slow.taken.as_slice() == text.as_slice());
    Ok(())
}

/// A file of a shelf.
fn file(alloc: Global, name: &str, bytes: &[u8]) -> Result<(String, Vec<u8>), AllocError> {
    Ok((
        String::from_str(alloc, name)?,
        Vec::from_slice(alloc, bytes)?,
    ))
}

#[test]
fn a_shelf_in_memory_fails_when_it_is_asked_to(rt: HostRuntime) -> Result<(), Fail> {
    let alloc = rt.alloc();
    let mut files = Vec::new(alloc);
    files.push(file(alloc, "f", b"one")?)?;
    files.push(file(alloc, "f", b"two")?)?;
    let mut shelf = MemShelf::new(files, Vec::from_slice(alloc, &[2])?);
    let fetched: [(&str, usize, Result<&[u8], FetchFault>); 4] = [
        ("f", 3, Ok(b"one")),
        ("f", 3, Err(FetchFault::Failed)),
        ("f", 2, Err(FetchFault::TooLong)),
        ("g", 3, Err(FetchFault::Failed)),
    ];
    for (name, most, answer) in fetched {
        assert!(rt; fetches(alloc, &mut shelf, name, most, answer));
    }
    Ok(())
}

#[test]
fn a_sink_in_memory_fails_when_it_is_asked_to(rt: HostRuntime) -> Result<(), Fail> {
    let mut sink = MemSink::new(rt.alloc(), 5, Vec::from_slice(rt.alloc(), &[2])?)?;
    let pieces: [(&[u8], Result<usize, SinkFault>); 4] = [
        (b"abc", Ok(3)),
        (b"def", Err(SinkFault::Failed)),
        (b"def", Ok(2)),
        (b"f", Err(SinkFault::Failed)),
    ];
    assert!(rt; puts(&mut sink, &pieces));
    assert!(rt; sink.taken() == b"abcde".as_slice());
    Ok(())
}

#[test]
fn the_rest_is_put_again_until_a_put_fails(rt: HostRuntime) -> Result<(), Fail> {
    let mut sink = MemSink::short(rt.alloc(), 100, Vec::from_slice(rt.alloc(), &[5])?, 2)?;
    assert!(rt; sink.put(b"abc") == Ok(2));
    assert!(rt; say(&mut sink, b"c\ndef\n") == Ok(()));
    assert!(rt; say(&mut sink, b"ghi\n") == Err(SinkFault::Failed));
    assert!(rt; sink.taken() == b"abc\ndef\n".as_slice());
    Ok(())
}

#[test]
fn a_sink_that_drops_takes_every_piece_whole(rt: HostRuntime) {
    let mut sink = DropSink::new();
    assert!(rt; sink.put(b"64 port AA\n") == Ok(11));
    assert!(rt; say(&mut sink, b"beep\nbeep\n") == Ok(()));
}
