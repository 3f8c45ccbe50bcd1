//! What INT 09h keeps, which the program doesn't show: its flags, and the words in its buffer. Worked examples as tables:
//! what happens, and what is so then.

use int09::*;
use std::alloc::Global;
use std::process::Abort;
use std::test::Fail;

/// A row of an example.
#[derive(Clone, Copy, Drop)]
enum Row {
    /// These bytes are read so many times, whatever is said of them.
    Feed(u8, &'static [u8]),
    /// The next word is taken, and is this, if any.
    Take(Option<u16>),
    /// So many words are in the buffer.
    Count(usize),
    /// At this place of the buffer is no word.
    NoWordAt(usize),
    /// The flags at 40:17 are these.
    B17(u8),
    /// The flags at 40:18 are these.
    B18(u8),
    /// An acknowledgement has come.
    Acknowledged,
}

use Row::{Acknowledged, B17, B18, Count, Feed, NoWordAt, Take};

/// Reads these bytes so many times.
fn feed(bios: &mut Bios, times: u8, bytes: &[u8]) {
    for _ in 0..times {
        for byte in bytes {
            let _ = bios.feed(*byte);
        }
    }
}

/// Plays a row. Answers whether what it says is so.
fn is_so(bios: &mut Bios, row: Row) -> bool {
    match row {
        Feed(times, bytes) => {
            feed(bios, times, bytes);
            true
        }
        Take(word) => bios.take() == word,
        Count(count) => bios.count() == count,
        NoWordAt(place) => bios.word_at(place).is_none(),
        B17(flags) => bios.flags().b17 == flags,
        B18(flags) => bios.flags().b18 == flags,
        Acknowledged => bios.flags().ack,
    }
}

/// Plays the rows of an example, from the start on.
fn play(rt: &impl Abort, alloc: Global, rows: &[Row]) -> Result<(), Fail> {
    let mut bios = Bios::new(alloc)?;
    for (at, row) in rows.iter().enumerate() {
        assert!(rt; is_so(&mut bios, *row), "row {at}");
    }
    Ok(())
}

#[test]
fn locks_and_shifts_have_flags(rt: HostRuntime) -> Result<(), Fail> {
    play(
        &rt,
        rt.alloc(),
        &[
            // Ctrl with Scroll Lock; Caps Lock, and a; left Shift, Tab, F7 and a
            Feed(1, &[0x1d, 0x46, 0xc6, 0x9d]),
            Feed(1, &[0x3a, 0x3a, 0xba, 0x1e]),
            Feed(1, &[0x2a, 0x0f, 0x41, 0x1e]),
            // Num Lock, keypad 4 and Insert; the same without Shift
            Feed(1, &[0x45, 0x4b, 0x52]),
            Feed(1, &[0xaa, 0x4b, 0x52]),
            B17(0xe0),
            B18(0xa0),
        ],
    )
}

#[test]
fn a_boot_empties_the_buffer(rt: HostRuntime) -> Result<(), Fail> {
    play(
        &rt,
        rt.alloc(),
        &[
            // Sixteen words, of which one is taken
            Feed(15, &[0x1e, 0x9e]),
            Feed(1, &[0x1e]),
            Count(15),
            Take(Some(0x1e61)),
            NoWordAt(14),
            // a pause, SysReq, an answer and an overrun
            Feed(1, &[0x1d, 0x45, 0x45, 0x46, 0x54, 0x54, 0xd4, 0xfa, 0xff]),
            Acknowledged,
            // Ctrl, Alt and Del
            Feed(1, &[0x38, 0x53]),
            Count(0),
            Take(None),
            B17(0),
        ],
    )
}
