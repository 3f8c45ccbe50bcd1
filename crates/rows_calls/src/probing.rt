//! Probes that ride on the runs of `run`, `expect` and `sample`, and are left alone by the commands without a run.

use crate::calls::call;
use app_words::Exit;
use io_edge::MemSink;
use run_probes::{CellProbe, Probe, Tally};
use std::alloc::{AllocError, Global};
use std::test::Fail;

/// A probe of one cell, armed with a place and a value.
#[derive(Drop)]
struct Case {
    words: &'static [&'static str],
    place: u16,
    exit: Exit,
    fails: &'static [u32],
    /// Whether each step is met.
    meets: bool,
}

/// The last cell of data memory is 00 after the first step, and what is after it is never met.
static CASES: [Case; 7] = [
    Case {
        words: &["run", "layout", "keys"],
        place: 0x07f,
        exit: Exit::Done,
        fails: &[],
        meets: true,
    },
    Case {
        words: &["run", "layout", "keys"],
        place: 0x080,
        exit: Exit::Done,
        fails: &[],
        meets: false,
    },
    Case {
        words: &["expect", "layout", "keys"],
        place: 0x07f,
        exit: Exit::Done,
        fails: &[],
        meets: true,
    },
    // If the sink fails after a run, the probes have looked.
    Case {
        words: &["run", "layout", "keys", "--steps"],
        place: 0x07f,
        exit: Exit::Write,
        fails: &[1],
        meets: true,
    },
    Case {
        words: &["compile", "layout"],
        place: 0x07f,
        exit: Exit::Done,
        fails: &[],
        meets: false,
    },
    Case {
        words: &["words", "1C"],
        place: 0x07f,
        exit: Exit::Done,
        fails: &[],
        meets: false,
    },
    Case {
        words: &["run", "layout"],
        place: 0x07f,
        exit: Exit::Words,
        fails: &[],
        meets: false,
    },
];

impl Case {
    /// The tally is that of the case.
    fn has(&self, tally: &Tally) -> bool {
        if self.meets {
            tally.count >= 1 && tally.first == Some(1)
        } else {
            tally.count == 0 && tally.first.is_none()
        }
    }
}

#[test]
fn probes_ride_on_run_and_expect_alone(rt: HostRuntime) -> Result<(), Fail> {
    let alloc = rt.alloc();
    for case in &CASES {
        let mut probe = CellProbe::new();
        probe.arm(case.place, 0);
        let mut probes: Vec<Box<dyn Probe>> = Vec::new(alloc);
        probes.push(Box::new(alloc, probe)?)?;
        let sink = MemSink::new(alloc, 8192, Vec::from_slice(alloc, case.fails)?)?;
        let outcome = call(alloc, case.words, &[("keys", b"0 end")], sink, &mut probes)?;
        assert_eq!(rt; outcome.exit, case.exit);
        assert!(rt; probes.len() == 1);
        for probe in &probes {
            assert!(rt; case.has(&probe.tell()));
        }
    }
    Ok(())
}

/// How many steps of a call's run find this value in a cell of data memory.
fn steps_with(alloc: Global, words: &[&str], cell: u16, value: u8) -> Result<u64, AllocError> {
    let mut probe = CellProbe::new();
    probe.arm(cell, value);
    let mut probes: Vec<Box<dyn Probe>> = Vec::new(alloc);
    probes.push(Box::new(alloc, probe)?)?;
    let sink = MemSink::new(alloc, 8192, Vec::new(alloc))?;
    call(alloc, words, &[], sink, &mut probes)?;
    match probes.first() {
        Some(probe) => Ok(probe.tell().count),
        None => Ok(0),
    }
}

/// The first stroke is that of the key in column 3 and row 5. The counts that are printed are the same; cell 63 has the keys of
/// column 3 that one reading alone has shown otherwise.
#[test]
fn a_key_is_pending_in_the_debounced_load_alone(rt: HostRuntime) -> Result<(), Fail> {
    let alloc = rt.alloc();
    assert_eq!(rt; steps_with(alloc, &["sample", "1"], 0x063, 0x20)?, 0);
    assert!(rt; steps_with(alloc, &["sample", "--debounced", "1"], 0x063, 0x20)? > 0);
    Ok(())
}
