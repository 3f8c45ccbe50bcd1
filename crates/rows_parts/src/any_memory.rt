//! The kernel in a part that holds anything when it is switched on.

ghost use Rattle.std.specs.Prelude.{◌≡◌, ◌<◌, ◌/◌, ◌%◌};

use crate::typing_hi::TYPING_HI;
use arrayvec::ArrayVec;
use board_terms::Matrix;
use fw_compile::compile;
use fw_kernel::{KERNEL, TICK};
use fw_ticks::at_tick;
use host_turn::Desk;
use int09::Bios;
use joint_run::{Due, Joint, Machine, Outside, Stamped};
use key_file::{History, read_history};
use layout_reader::us84_layout;
use mcs48_core::{ALL_HIGH, Count, Mcu, Stuck, reset};
use mcs48_isa::Image;
use pc_tables::item_line;
use std::alloc::{AllocError, Global};
use std::process::Abort;
use std::test::Fail;

/// The next of a row of bytes that begins with a seed.
fn draw(seed: &mut u32) -> u8 {
    *seed = seed.wrapping_mul(1_664_525).wrapping_add(1_013_904_223);
    seed.to_be_bytes()[0]
}

/// The status byte after reset with any carries; its bit 3 is always 1.
fn any_carries(drawn: u8) -> u8
    ensures { result / 8 % 2 ≡ 1 }
{
    match drawn % 4 {
        0 => 0x08,
        1 => 0x48,
        2 => 0x88,
        _ => 0xc8,
    }
}

/// Any count of the prescaler.
fn any_prescaler(drawn: u8) -> u8
    ensures { result < 32 }
{
    drawn % 32
}

/// A processor after reset in a part that held what the seed gives: any data memory, A, T, carries, prescaler, timer
/// request, bus latch and last level of T1, and an interrupt marked as in service or not.
fn switched_on(mut seed: u32) -> Mcu {
    let mut mcu = reset();
    for cell in mcu.ram.iter_mut() {
        *cell = draw(&mut seed);
    }
    mcu.a = draw(&mut seed);
    mcu.t = draw(&mut seed);
    mcu.pre = any_prescaler(draw(&mut seed));
    mcu.psw = any_carries(draw(&mut seed));
    mcu.rq = draw(&mut seed) >= 0x80;
    mcu.bus = draw(&mut seed);
    mcu.last_t1 = draw(&mut seed) >= 0x80;
    mcu.svc = draw(&mut seed) >= 0x80;
    mcu
}

/// The kernel, without a layout's tables.
fn kernel() -> Image {
    Image { bytes: KERNEL }
}

/// Goes on to the first tick start, and answers the cycles up to it.
fn to_first_start(mcu: &mut Mcu, image: &Image) -> Result<u32, Stuck> {
    let mut cycles: u32 = 0;
    for _ in 0..5000 {
        if mcu.svc && mcu.pc == TICK {
            break;
        }
        cycles = cycles.wrapping_add(u32::from(mcu.step(image, ALL_HIGH)?));
    }
    Ok(cycles)
}

/// Whether a processor is at a tick start, in the state of this one: the same counter, status, accumulator, timer and latches,
/// and the same 128 bytes of data memory.
fn starts_alike(mcu: &Mcu, cleared: &Mcu) -> bool {
    let at_tick = mcu.svc && mcu.pc == TICK;
    let registers = (mcu.psw, mcu.a, mcu.t, mcu.pre, mcu.rq);
    let latches = (mcu.p1, mcu.p2, mcu.ram);
    at_tick
        && registers == (cleared.psw, cleared.a, cleared.t, cleared.pre, cleared.rq)
        && latches == (cleared.p1, cleared.p2, cleared.ram)
}

/// Of 32 parts that hold anything each reaches its first tick start when one with cleared memory does, and in the same state.
#[test]
fn any_memory_comes_to_one_first_tick(rt: HostRuntime) -> Result<(), Fail> {
    let image = kernel();
    let mut cleared = reset();
    let start = to_first_start(&mut cleared, &image)?;
    assert!(rt; start == 4096 || start == 4097);
    for seed in 1..33 {
        let mut mcu = switched_on(seed);
        assert!(rt; to_first_start(&mut mcu, &image)? == start, "seed {seed}");
        assert!(rt; starts_alike(&mcu, &cleared), "seed {seed}");
    }
    Ok(())
}

/// Any status byte: flags, register bank and stack pointer; its bit 3 is always 1.
fn any_status(drawn: u8) -> u8
    ensures { result / 8 % 2 ≡ 1 }
{
    drawn / 16 * 16 + 8 + drawn % 8
}

/// A processor whose counter came to 000 through the free places in what the seed gives: also any status, F1, memory bank,
/// timer, interrupts and mark of a service, and any latches of ports 1 and 2. No interrupt is entered there.
fn upset(seed: u32) -> Mcu {
    let mut mcu = switched_on(seed);
    let mut more = seed.wrapping_mul(77);
    mcu.psw = any_status(draw(&mut more));
    mcu.f1 = draw(&mut more) >= 0x80;
    mcu.mb = draw(&mut more) >= 0x80;
    mcu.tf = draw(&mut more) >= 0x80;
    mcu.run = match draw(&mut more) % 3 {
        0 => Count::Off,
        1 => Count::Timer,
        _ => Count::Counter,
    };
    mcu.ext_on = draw(&mut more) >= 0x80;
    mcu.tim_on = draw(&mut more) >= 0x80;
    mcu.svc = draw(&mut more) >= 0x80;
    mcu.rq = mcu.svc && draw(&mut more) >= 0x80;
    mcu.p1 = draw(&mut more);
    mcu.p2 = draw(&mut more);
    mcu
}

/// Whether a processor waits for the timer alone, as this one does.
fn waits_alike(mcu: &Mcu, cleared: &Mcu) -> bool {
    !mcu.mb && !mcu.ext_on && mcu.tim_on && mcu.run == cleared.run
}

/// The free places from the end of the debounce to the end of the program are NOPs. Of 200 such processors each reaches its
/// first tick start when one after reset does, and in the same state.
#[test]
fn any_state_at_000_comes_to_one_first_tick(rt: HostRuntime) -> Result<(), Fail> {
    let image = kernel();
    assert!(rt; image.bytes[0x523..].iter().all(|byte| *byte == 0));
    let mut cleared = reset();
    let start = to_first_start(&mut cleared, &image)?;
    for seed in 1..201 {
        let mut mcu = upset(seed);
        assert!(rt; to_first_start(&mut mcu, &image)? == start, "seed {seed}");
        assert!(rt;
            starts_alike(&mcu, &cleared) && waits_alike(&mcu, &cleared),
            "seed {seed}"
        );
    }
    Ok(())
}

/// The joint machine of this image at power-on, in whose processor is this part.
fn joint_of(alloc: Global, image: &Image, part: Mcu) -> Result<Joint, AllocError> {
    let outside = Outside {
        desk: Desk::new(Bios::new(alloc)?),
        clock: true,
        shown: 0,
    };
    Ok(Joint::of_parts(Machine {
        image: Image { bytes: image.bytes },
        matrix: Matrix::new(),
        mcu: part,
        outside,
        cycle: 0,
        steps: 0,
    }))
}

/// The next events of a history, after so many of its edges and events.
fn next_due(history: &History, edges: usize, host: usize) -> Due {
    let mut due = Due {
        edges: ArrayVec::new(),
        host: ArrayVec::new(),
    };
    for edge in history.edges().iter().skip(edges).take(4) {
        let _ = due.edges.try_push(*edge);
    }
    for event in history.host().iter().skip(host).take(2) {
        let _ = due.host.try_push(*event);
    }
    due
}

/// A run under a history: how many of its edges and events were made, the next ones, how many ticks have started, and what was
/// said.
#[derive(Drop)]
struct Run {
    joint: Joint,
    edges: usize,
    host: usize,
    due: Due,
    ticks: u32,
    text: Vec<u8>,
}

impl Run {
    /// Puts down what was said in this tick.
    fn note(&mut self, items: &[Stamped]) -> Result<(), AllocError> {
        for said in items {
            let line = item_line(self.ticks.saturating_sub(1), said.item);
            self.text.extend_from_slice(&line)?;
        }
        Ok(())
    }

    /// One step.
    fn step(&mut self, history: &History) -> Result<(), Fail> {
        if self.joint.cycle() > 10_000_000 {
            return Err("too long".into());
        }
        let seen = self.joint.step(&self.due)?;
        self.note(seen.items.as_slice())?;
        if seen.edges > 0 || seen.host > 0 {
            self.edges = self.edges.saturating_add(usize::from(seen.edges));
            self.host = self.host.saturating_add(usize::from(seen.host));
            self.due = next_due(history, self.edges, self.host);
        }
        Ok(())
    }

    /// A tick starts. Answers whether it keeps the cadence, and the run goes on to this stamp.
    fn goes_on(&mut self, end: u64) -> bool {
        let least = 4096 + 2048 * u64::from(self.ticks);
        let cycle = self.joint.cycle();
        if cycle < least || cycle > least + 5 {
            return false;
        }
        self.ticks = self.ticks.saturating_add(1);
        cycle < end.saturating_add(4096)
    }
}

/// The text of the run of a history, up to the first tick start at or after its end, and how many tick starts kept the cadence.
fn log_of(alloc: Global, joint: Joint, history: &History) -> Result<(Vec<u8>, u32), Fail> {
    let mut run = Run {
        joint,
        edges: 0,
        host: 0,
        due: next_due(history, 0, 0),
        ticks: 0,
        text: Vec::new(alloc),
    };
    for _ in 0..1_000_000 {
        if at_tick(&run.joint) && !run.goes_on(history.end()) {
            break;
        }
        run.step(history)?;
    }
    Ok((run.text, run.ticks))
}

/// The run of a history in each of four parts that hold anything when they are switched on is the run from cleared memory,
/// whole: the same log, and the cadence at each tick.
fn check_parts(rt: &impl Abort, alloc: Global, first: u32) -> Result<(), Fail> {
    let layout = us84_layout(alloc)?;
    let (keys, log) = TYPING_HI;
    let history = read_history(alloc, keys.as_bytes(), &layout)?;
    let image = compile(&layout);
    for turn in 0..4u32 {
        let seed = first.wrapping_add(turn);
        let joint = joint_of(alloc, &image, switched_on(seed))?;
        let (text, ticks) = log_of(alloc, joint, &history)?;
        assert!(rt;
            text.as_slice() == log.as_bytes() && ticks == 158,
            "seed {seed}"
        );
    }
    Ok(())
}

#[test]
fn parts_1_to_4_give_one_log(rt: HostRuntime) -> Result<(), Fail> {
    check_parts(&rt, rt.alloc(), 1)
}

#[test]
fn parts_5_to_8_give_one_log(rt: HostRuntime) -> Result<(), Fail> {
    check_parts(&rt, rt.alloc(), 5)
}

#[test]
fn parts_9_to_12_give_one_log(rt: HostRuntime) -> Result<(), Fail> {
    check_parts(&rt, rt.alloc(), 9)
}

#[test]
fn parts_13_to_16_give_one_log(rt: HostRuntime) -> Result<(), Fail> {
    check_parts(&rt, rt.alloc(), 13)
}

#[test]
fn parts_17_to_20_give_one_log(rt: HostRuntime) -> Result<(), Fail> {
    check_parts(&rt, rt.alloc(), 17)
}

#[test]
fn parts_21_to_24_give_one_log(rt: HostRuntime) -> Result<(), Fail> {
    check_parts(&rt, rt.alloc(), 21)
}

#[test]
fn parts_25_to_28_give_one_log(rt: HostRuntime) -> Result<(), Fail> {
    check_parts(&rt, rt.alloc(), 25)
}

#[test]
fn parts_29_to_32_give_one_log(rt: HostRuntime) -> Result<(), Fail> {
    check_parts(&rt, rt.alloc(), 29)
}
