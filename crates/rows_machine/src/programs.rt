//! Programs made by chance on the board, beside the processor alone.

ghost use Rattle.std.specs.Prelude.{◌≤◌, length};

use crate::alike::are_alike;
use io_edge::MemSink;
use key_file::{History, ListFeed, read_history};
use layout_reader::us84_layout;
use mcs48_core::{ALL_HIGH, Mcu, reset};
use mcs48_isa::Image;
use run_probes::Probe;
use run_program::{End, Finished, ReadyRun, run_to};
use std::alloc::{AllocError, Global};
use std::process::Abort;
use std::test::Fail;

/// The history of a key file for the sample layout.
fn history_of(rt: &impl Abort, alloc: Global, keys: &[u8]) -> Result<History, AllocError>
    requires { length keys.now ≤ 4194304 }
{
    let layout = us84_layout(alloc)?;
    let Ok(history) = read_history(alloc, keys, &layout) else {
        panic!(rt; "no history")
    };
    Ok(history)
}

/// What the run of an image under a key file says and comes to.
fn ran(
    rt: &impl Abort,
    alloc: Global,
    image: &Image,
    keys: &[u8],
    probes: &mut Vec<Box<dyn Probe>>,
) -> Result<(MemSink, Finished), AllocError>
    requires { length keys.now ≤ 4194304 }
{
    let history = history_of(rt, alloc, keys)?;
    let board = ReadyRun::of_program(alloc, image, 0, ListFeed::new(&history))?;
    let mut out = MemSink::new(alloc, 65536, Vec::new(alloc))?;
    match run_to(board, &mut out, probes) {
        Ok(ended) => Ok((out, ended)),
        Err(_) => panic!(rt; "the sink failed"),
    }
}

/// The next of a row of bytes made by chance.
fn chance(seed: &mut u64) -> u8 {
    *seed = seed
        .wrapping_mul(6_364_136_223_846_793_005)
        .wrapping_add(1_442_695_040_888_963_407);
    (*seed >> 33 & 0xff) as u8
}

/// A program by chance, in which OUTL P2, ORL P2 and ANL P2 are left out.
fn any_program(seed: &mut u64) -> Image {
    let mut image = Image { bytes: [0; 2048] };
    for place in image.bytes.iter_mut() {
        *place = match chance(seed) {
            0x3a | 0x8a | 0x9a => 0x17,
            byte => byte,
        };
    }
    image
}

/// What the processor alone comes to in 4,096 cycles: its state, its cycles, and how it ends.
fn run_alone(image: &Image) -> (Mcu, u64, End) {
    let mut mcu = reset();
    let mut cycles: u64 = 0;
    for _step in 0..4096 {
        if cycles >= 4096 {
            break;
        }
        match mcu.step(image, ALL_HIGH) {
            Ok(spent) => cycles = cycles.saturating_add(u64::from(spent)),
            Err(place) => return (mcu, cycles, End::Stuck(place)),
        }
    }
    (mcu, cycles, End::Reached)
}

#[test]
fn a_program_that_leaves_port_2_runs_as_the_processor_alone(rt: HostRuntime) -> Result<(), Fail> {
    let alloc = rt.alloc();
    let mut seed: u64 = 88_172_645_463_325_252;
    let mut stuck: u32 = 0;
    for program in 0..100 {
        let image = any_program(&mut seed);
        let (out, ended) = ran(&rt, alloc, &image, b"0 end\n", &mut Vec::new(alloc))?;
        let (mcu, cycles, end) = run_alone(&image);
        assert!(rt; out.taken().is_empty(), "program {program}");
        assert!(rt;
            ended.end() == end && ended.cycles() == cycles,
            "program {program}"
        );
        assert!(rt; are_alike(ended.mcu(), &mcu), "program {program}");
        if end != End::Reached {
            stuck = stuck.saturating_add(1);
        }
    }
    assert!(rt; stuck > 9);
    Ok(())
}
