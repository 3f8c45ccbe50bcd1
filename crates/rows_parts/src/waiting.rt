//! A key just after the read of its column, and what waits after it: logs with ticks at the multiples of 2,048.

ghost use Rattle.std.specs.Prelude.{◌≡◌, ◌<◌, ◌≤◌, ◌-◌, ◌*◌, length, IfOk};
ghost use Rattle.board_terms.specs.Cadence.{IsLast, KeepsCadenceTo, listed};

use key_file::read_history;
use layout_reader::{Layout, us84_layout};
use model_link::expect;
use pc_tables::Item;
use std::alloc::{AllocError, Global};
use std::test::Fail;

/// The starts of a run's ticks if each tick takes 2,048 cycles.
fn even_starts(alloc: Global, end: u64) -> Result<Vec<u64>, AllocError>
    requires { end ≤ 240000000 }
    ensures some { IfOk result (λ starts. 0 < length starts.items) }
    ensures cadence { IfOk result (λ starts. KeepsCadenceTo (listed starts.items) (length starts.items - 1)) }
    ensures last { IfOk result (λ starts. IsLast (listed starts.items) end (length starts.items - 1)) }
{
    let last = (end + 2047) / 2048;
    let mut starts = Vec::new(alloc);
    for n in 0..last + 1 {
        starts.push(2048 * n)?;
    }
    Ok(starts)
}

/// Whether INT 09h reads this code in this tick, and in no other.
fn is_read_in(
    alloc: Global,
    layout: &Layout,
    keys: &str,
    code: u8,
    tick: u32,
) -> Result<bool, Fail> {
    if keys.len() > 4096 {
        return Ok(false);
    }
    let history = read_history(alloc, keys.as_bytes(), layout)?;
    let starts = even_starts(alloc, history.end())?;
    let log = expect(alloc, layout, &history, starts.as_slice())?;
    let mut found = false;
    for line in log.iter() {
        if line.item == Item::Port(code) {
            if line.tick != tick {
                return Ok(false);
            }
            found = true;
        }
    }
    Ok(found)
}

/// Key files, a code, and the tick in which it is read.
static ROWS: [(&str, u8, u32); 5] = [
    ("159808 press a\n200000 end", 0x1e, 79),
    ("159809 press a\n200000 end", 0x1e, 80),
    ("159809 press a\n159809 press s\n200000 end", 0x1f, 81),
    ("159809 press a\n165952 release a\n200000 end", 0x9e, 83),
    ("159809 press a\n165953 release a\n200000 end", 0x9e, 84),
];

/// Column 3, if `a` is, is read at offset 64: in tick 78 at stamp 159,808. A press up to then is read by INT 09h
/// in tick 79, and one a cycle later in tick 80, at 164,512: 4,703 cycles after it, and 5 more if that tick starts
/// late. A byte more takes a tick more, as does the F0 before a release's code, which INT 09h doesn't see.
#[test]
fn an_edge_after_its_columns_read_waits_for_the_next(rt: HostRuntime) -> Result<(), Fail> {
    let layout = us84_layout(rt.alloc())?;
    for (keys, code, tick) in &ROWS {
        assert!(rt;
            is_read_in(rt.alloc(), &layout, keys, *code, *tick)?,
            "{keys}"
        );
    }
    Ok(())
}
