ghost use Rattle.std.specs.Prelude.{◌≡◌, false};
ghost use Rattle.ctl_wire.specs.Cycles.{next_cycle};

use board_terms::{HIGH, Lines};
use ctl_core::Port;
use ctl_wire::CtlWire;
use std::process::Abort;

const CLOCK_LOW: Lines = Lines {
    clk: false,
    dat: true,
};

const DATA_LOW: Lines = Lines {
    clk: true,
    dat: false,
};

/// The controller between two cycles, with the number of the next one.
#[derive(Drop)]
struct Bench {
    wire: CtlWire,
    now: u64,
    ghost settled: { wire.waits ≡ false },
    ghost cycle: { now ≡ next_cycle wire.cycle },
}

impl Bench {
    fn new() -> Bench {
        Bench {
            wire: CtlWire::new(),
            now: 0,
        }
    }

    /// A cycle, in which the keyboard drives these levels, and the host writes a byte or does nothing. Answers whether
    /// what was written was taken into the input buffer.
    fn cycle(&mut self, keyboard: Lines, byte: Option<(Port, u8)>) -> bool {
        if self.now >= 1_000_000 {
            return false;
        }
        let driven = self.wire.drive();
        let line = Lines {
            clk: keyboard.clk && driven.clk,
            dat: keyboard.dat && driven.dat,
        };
        self.wire.look(self.now, line);
        let written = match byte {
            None => true,
            Some((port, byte)) => self.wire.host_write(port, byte).is_ok(),
        };
        self.wire.settle(self.now);
        self.now += 1;
        written
    }

    /// A cycle in which both wires are high and noise turns round this bit of the next frame.
    fn flip(&mut self, bit: u8) {
        if self.now >= 1_000_000 || bit < 1 || bit > 9 {
            return;
        }
        self.wire.look(self.now, HIGH);
        self.wire.flip(bit);
        self.wire.settle(self.now);
        self.now += 1;
    }

    /// Cycles up to before this one.
    fn run_to(&mut self, to: u64, keyboard: Lines) {
        if self.now < to {
            for _ in self.now..to {
                self.cycle(keyboard, None);
            }
        }
    }

    /// A cell of 32 cycles: the clock falls at once and stays low for 16, with data at this level.
    fn cell(&mut self, dat: bool) {
        for _ in 0..16_u8 {
            self.cycle(Lines { clk: false, dat }, None);
        }
        for _ in 0..16_u8 {
            self.cycle(Lines { clk: true, dat }, None);
        }
    }

    /// The cells of a frame, as many as there are bits; 1 is high.
    fn cells(&mut self, bits: &[u8]) {
        for bit in bits {
            self.cell(*bit == b'1');
        }
    }
}

/// A row of an example: what the keyboard or the host does at the wires, or what is so then.
#[derive(Clone, Copy, Drop)]
enum Row {
    /// Cycles up to before this one, in which the keyboard drives these levels.
    To(u64, Lines),
    /// The keyboard's cells of these bits.
    Cells(&'static [u8]),
    /// The host writes a byte, which is taken into the input buffer, while the keyboard lets both wires go.
    Write(Port, u8),
    /// The host reads this byte from port 60h.
    Read(u8),
    /// Noise turns round this bit of the next frame.
    Flip(u8),
    /// The controller drives these levels.
    Drives(Lines),
    /// Whether the input buffer is full.
    InputFull(bool),
    /// Whether the output buffer is full.
    OutputFull(bool),
    /// The output buffer was last filled in this cycle.
    Filled(u64),
    /// How many times in a row a byte was asked for again.
    Resends(u8),
}

use Port::{P60, P64};
use Row::{Cells, Drives, Filled, Flip, InputFull, OutputFull, Read, Resends, To, Write};

/// Plays a row. Answers whether what it says is so.
fn is_so(bench: &mut Bench, row: Row) -> bool {
    match row {
        To(cycle, keyboard) => bench.run_to(cycle, keyboard),
        Cells(bits) => bench.cells(bits),
        Flip(bit) => bench.flip(bit),
        Write(port, byte) => return bench.cycle(HIGH, Some((port, byte))),
        Read(byte) => return bench.wire.host_read60() == byte,
        Drives(lines) => return bench.wire.drive() == lines,
        InputFull(full) => return bench.wire.core().input_full() == full,
        OutputFull(full) => return bench.wire.core().output_full() == full,
        Filled(cycle) => return bench.wire.filled() == cycle,
        Resends(count) => return bench.wire.core().resends() == count,
    }
    true
}

/// Plays the rows of an example, from the start on.
fn play(rt: &impl Abort, rows: &[Row]) {
    let mut bench = Bench::new();
    for (at, row) in rows.iter().enumerate() {
        assert!(rt; is_so(&mut bench, *row), "row {at}");
    }
}

#[test]
fn a_byte_of_the_keyboard_is_received_at_the_eleventh_edge(rt: HostRuntime) {
    play(
        &rt,
        &[
            To(100, HIGH),
            Cells(b"0001110000"),
            Drives(HIGH),
            OutputFull(false),
            To(421, CLOCK_LOW),
            OutputFull(true),
            Filled(420),
            Drives(CLOCK_LOW),
            To(436, CLOCK_LOW),
            To(600, HIGH),
            Drives(CLOCK_LOW),
            Read(0x1e),
            To(601, HIGH),
            Drives(HIGH),
        ],
    );
}

#[test]
fn a_byte_read_at_once_leaves_a_hold_of_64_cycles(rt: HostRuntime) {
    play(
        &rt,
        &[
            To(100, HIGH),
            Cells(b"0001110000"),
            To(421, CLOCK_LOW),
            Read(0x1e),
            To(484, HIGH),
            Drives(CLOCK_LOW),
            To(485, HIGH),
            Drives(HIGH),
        ],
    );
}

#[test]
fn a_byte_of_wrong_parity_is_asked_for_again(rt: HostRuntime) {
    play(
        &rt,
        &[
            To(100, HIGH),
            Cells(b"0001110001"),
            To(421, CLOCK_LOW),
            OutputFull(false),
            Filled(0),
            Drives(CLOCK_LOW),
            Resends(1),
            To(485, HIGH),
            Drives(DATA_LOW),
        ],
    );
}

#[test]
fn the_last_flip_is_used_by_the_next_frame_alone(rt: HostRuntime) {
    play(
        &rt,
        &[
            Flip(9),
            Flip(3),
            To(100, HIGH),
            Cells(b"0001110000"),
            To(421, CLOCK_LOW),
            Resends(1),
            // FE goes out to the keyboard, which sends its byte again
            To(600, HIGH),
            Cells(b"11111111111"),
            To(1100, HIGH),
            Cells(b"0001110000"),
            To(1421, CLOCK_LOW),
            Resends(0),
            Read(0x1e),
        ],
    );
}

#[test]
fn a_waiting_input_breaks_off_a_frame_before_its_tenth_edge(rt: HostRuntime) {
    play(
        &rt,
        &[
            To(100, HIGH),
            Cells(b"000111000"),
            Drives(HIGH),
            Write(P64, 0xaa),
            Drives(CLOCK_LOW),
            OutputFull(true),
            Filled(388),
        ],
    );
}

#[test]
fn from_the_tenth_edge_on_an_input_waits(rt: HostRuntime) {
    play(
        &rt,
        &[
            To(100, HIGH),
            Cells(b"0001110000"),
            Write(P64, 0xaa),
            Drives(HIGH),
            InputFull(true),
            To(422, CLOCK_LOW),
            Read(0x1e),
        ],
    );
}

#[test]
fn a_byte_for_the_keyboard_is_put_out_at_its_edges(rt: HostRuntime) {
    play(
        &rt,
        &[
            To(600, HIGH),
            Write(P60, 0xed),
            Drives(CLOCK_LOW),
            To(664, HIGH),
            Drives(CLOCK_LOW),
            To(665, HIGH),
            Drives(DATA_LOW),
            To(700, HIGH),
            Drives(DATA_LOW),
            // ED is 1011 0111, the lowest bit first, with the parity bit 1
            Cells(b"1"),
            Drives(HIGH),
            Cells(b"1"),
            Drives(DATA_LOW),
            Cells(b"1"),
            Drives(HIGH),
            Cells(b"1"),
            Drives(HIGH),
            Cells(b"1"),
            Drives(DATA_LOW),
            Cells(b"1111"),
            Drives(HIGH),
            Cells(b"1"),
            Drives(HIGH),
            // the eleventh edge hands the byte over, and a reply is awaited: nothing more is taken
            Cells(b"0"),
            Drives(HIGH),
            To(1052, HIGH),
            Write(P60, 0x02),
            InputFull(true),
            Drives(HIGH),
            // FA comes, is read, and the next byte is asked for under the same hold
            To(1100, HIGH),
            Cells(b"00101111111"),
            Filled(1420),
            Read(0xfa),
            To(1484, HIGH),
            InputFull(false),
            Drives(CLOCK_LOW),
            To(1485, HIGH),
            Drives(DATA_LOW),
        ],
    );
}

#[test]
fn edges_are_ignored_while_the_clock_is_pulled(rt: HostRuntime) {
    play(
        &rt,
        &[
            Write(P64, 0xad),
            Drives(CLOCK_LOW),
            To(100, HIGH),
            Cells(b"00011100001"),
            OutputFull(false),
            To(452, HIGH),
            Write(P64, 0xae),
            Drives(HIGH),
            To(500, HIGH),
            Cells(b"00011100001"),
            OutputFull(true),
            Filled(820),
        ],
    );
}
