//! The kernel: its labels, its cells, and its ticks.

use fw_kernel::cells::{
    AADUE, CHANGED, COUNT, DISABLED, FN, HEAD, HELD, LAST, LAYER, LIGHTS, MODE, PENDING, R0, R1,
    R2, R3, R4, R5, R6, R7, RATE, RCOUNT, REPLY, REPLYDUE, RINDEX, STARTED, TEST,
};
use fw_kernel::{KERNEL, SOURCE, TICK};
use mcs48_asm::assemble;
use mcs48_core::{ALL_HIGH, Mcu, reset};
use mcs48_isa::Image;
use std::alloc::{AllocError, Global};
use std::test::Fail;

/// The program memory that the source and this text after it fill.
pub fn assembled(alloc: Global, after: &str) -> Result<Image, Fail> {
    let mut text = String::from_str(alloc, SOURCE)?;
    text.push_str(after)?;
    if text.len() > 32_768 {
        return Err("too long".into());
    }
    Ok(assemble(alloc, text.as_bytes())?)
}

/// The cells that the source names, each with its name.
static CELLS: [(&str, u8); 16] = [
    ("HELD", HELD),
    ("CHANGED", CHANGED),
    ("REPLYDUE", REPLYDUE),
    ("AADUE", AADUE),
    ("COUNT", COUNT),
    ("STARTED", STARTED),
    ("TEST", TEST),
    ("MODE", MODE),
    ("DISABLED", DISABLED),
    ("RINDEX", RINDEX),
    ("RATE", RATE),
    ("RCOUNT", RCOUNT),
    ("REPLY", REPLY),
    ("LAST", LAST),
    ("LIGHTS", LIGHTS),
    ("FN", FN),
];

/// The three that have a line in the source's table of data memory alone.
static TOLD: [(&str, u8); 3] = [("HEAD", HEAD), ("LAYER", LAYER), ("PENDING", PENDING)];

/// A byte with each name for its value, assembled after the source, is the cell that its constant gives.
#[test]
fn each_cell_is_the_sources(rt: HostRuntime) -> Result<(), Fail> {
    let mut after = String::from_str(rt.alloc(), "\n ORG 700H\n")?;
    for (name, _) in &CELLS {
        after.push_str(" DB ")?;
        after.push_str(name)?;
        after.push_str("\n")?;
    }
    let image = assembled(rt.alloc(), after.as_str())?;
    for ((name, cell), byte) in CELLS.iter().zip(&image.bytes[0x700..]) {
        assert!(rt; *byte == *cell, "{}", name);
    }
    Ok(())
}

/// Whether the source's table of data memory has a line for a cell: the cell, or the first of its cells, and the name.
fn is_in_table(alloc: Global, name: &str, cell: u8) -> Result<bool, AllocError> {
    let start = format!(in alloc; ";   {cell:02X}")?;
    let named = format!(in alloc; "{name} ")?;
    for line in SOURCE.as_bytes().split(|byte| *byte == b'\n') {
        if line.starts_with(start.as_bytes())
            && line.len() > 12
            && line[12..].starts_with(named.as_bytes())
        {
            return Ok(true);
        }
    }
    Ok(false)
}

#[test]
fn each_cell_is_in_the_sources_table(rt: HostRuntime) -> Result<(), Fail> {
    for (name, cell) in CELLS.iter().chain(&TOLD) {
        assert!(rt; is_in_table(rt.alloc(), name, *cell)?, "{}", name);
    }
    Ok(())
}

/// The registers of a tick, and a program that writes 1 to 8 into them, in its register bank.
static REGISTERS: [u8; 8] = [R0, R1, R2, R3, R4, R5, R6, R7];

static FILLS: &str =
    "\n ORG 700H\n SEL RB1\n MOV R0,#1\n MOV R1,#2\n MOV R2,#3\n MOV R3,#4\n MOV R4,#5\n MOV R5,#6\n \
    MOV R6,#7\n MOV R7,#8\n";

#[test]
fn each_register_is_its_cell(rt: HostRuntime) -> Result<(), Fail> {
    let image = assembled(rt.alloc(), FILLS)?;
    let mut mcu = reset();
    mcu.pc = 0x700;
    for _step in 0..9 {
        assert!(rt; mcu.step(&image, ALL_HIGH).is_ok());
    }
    for (cell, byte) in REGISTERS.iter().zip(1..) {
        assert!(rt; mcu.ram[usize::from(*cell)] == byte, "{}", byte);
    }
    Ok(())
}

/// The processor alone, with all pins high: its cycles, and the ticks that have started.
#[derive(Drop)]
struct Alone {
    mcu: Mcu,
    cycle: u64,
    ticks: u32,
}

impl Alone {
    /// If a tick starts here, it is counted. Answers whether none starts, or this one keeps the cadence.
    fn keeps_cadence(&mut self) -> bool {
        if self.mcu.pc != TICK {
            return true;
        }
        let least = 4096 + 2048 * u64::from(self.ticks);
        self.ticks = self.ticks.saturating_add(1);
        least <= self.cycle && self.cycle <= least + 5
    }

    /// One step. Answers whether there was an instruction.
    fn step(&mut self, image: &Image) -> bool {
        let cycles = self.mcu.step(image, ALL_HIGH).unwrap_or(0);
        self.cycle = self.cycle.saturating_add(u64::from(cycles));
        cycles > 0
    }

    /// Whether the power-on test has ended, or both wires are released and all lights out.
    fn is_silent_in_test(&self) -> bool {
        self.ticks > 64 || self.mcu.p2 == 0xff && self.mcu.bus == 0xff
    }
}

/// The n-th tick begins at cycle 4,096 + 2,048 n, or at most five cycles later. Until the power-on test has ended both
/// wires stay released, and all lights out.
#[test]
fn ticks_keep_the_cadence_and_pull_no_wire_in_the_test(rt: HostRuntime) {
    let image = Image { bytes: KERNEL };
    let mut alone = Alone {
        mcu: reset(),
        cycle: 0,
        ticks: 0,
    };
    for _step in 0..340_000 {
        assert!(rt;
            alone.keeps_cadence(),
            "tick {} begins at cycle {}",
            alone.ticks,
            alone.cycle
        );
        assert!(rt; alone.step(&image), "no instruction at {}", alone.mcu.pc);
        assert!(rt; alone.is_silent_in_test(), "cycle {}", alone.cycle);
    }
    assert!(rt; alone.ticks >= 300, "only {} ticks", alone.ticks);
}
