//! The processor on its board, with the key matrix.

ghost use Rattle.std.specs.Prelude.{◌≡◌, ◌<◌};
ghost use Rattle.board_terms.specs.Matrix.{turned};
ghost use Rattle.chip_core.specs.Chips.{after, cycles_of, next_of, powered_on, reset_of};
ghost use Rattle.joint_run.specs.Joint.{latch_of, lights_of};
ghost use Rattle.kbd_half.specs.Keyboards.{keyboard_on, pins_at, with_chip};

use board_terms::{Lines, Matrix, Place};
use chip_core::Chip;
use mcs48_core::Pins;

/// The keyboard at its two wires.
#[derive(Drop)]
pub struct KbdHalf {
    /// The processor with its program.
    pub chip: Chip,
    /// The keys that are down.
    pub matrix: Matrix,
}

/// The levels at the processor's pins: the rows of the column that port 1 selects, and the two wires. Nobody pulls
/// another pin.
#[inline(always)]
pub(crate) fn pins(matrix: &Matrix, p1: u8, line: Lines) -> Pins
    ensures { result ≡ pins_at line matrix.now p1 }
{
    Pins {
        p1: 0xff,
        p2: 0xff,
        bus: matrix.rows(p1),
        t0: line.clk,
        t1: line.dat,
        int_pin: true,
    }
}

/// What a latch of port 2 drives on the two wires.
#[inline(always)]
pub(crate) fn driven(p2: u8) -> Lines
    ensures { result ≡ latch_of p2 }
{
    Lines {
        clk: p2 >> 0 & 1 == 1,
        dat: p2 >> 1 & 1 == 1,
    }
}

/// The latch of port 1.
#[inline(always)]
fn port_1(chip: &Chip) -> u8
    ensures { result ≡ chip.now.mcu.p1 }
{
    chip.mcu.p1
}

/// The latch of port 2.
#[inline(always)]
fn port_2(chip: &Chip) -> u8
    ensures { result ≡ chip.now.mcu.p2 }
{
    chip.mcu.p2
}

impl KbdHalf {
    /// A keyboard that was just switched on with this program. All keys are up. The processor's data memory, A and T held
    /// this byte when it was switched on.
    pub fn new(program: &[u8; 2048], fill: u8) -> KbdHalf
        ensures { result ≡ keyboard_on fill program.now }
    {
        KbdHalf {
            chip: Chip::new(program, fill),
            matrix: Matrix::new(),
        }
    }

    /// Switches the keyboard off, and on again with this program: all is as after `new`.
    pub fn power_on(&mut self, program: &[u8; 2048], fill: u8)
        ensures { self.new ≡ keyboard_on fill program.now }
    {
        self.chip.power_on(program, fill);
        self.matrix = Matrix::new();
    }

    /// Pulls the processor's reset pin for a moment, as `Chip::reset`. The keys stay as they are.
    pub fn reset(&mut self)
        ensures { self.new ≡ with_chip (reset_of self.old.chip) self.old }
    {
        self.chip.reset();
    }

    /// The key at a place goes down, or up. The processor stays as it is.
    pub fn edge(&mut self, place: Place, down: bool)
        ensures keys { self.new ≡ record self.old { matrix = turned place down self.old.matrix } }
    {
        self.matrix.edge(place, down);
    }

    /// One step of the processor, with the clock and the data wire at these levels: an instruction, or the entry of an
    /// interrupt that is due. The answer is its number of cycles, 1 or 2. It is 0 if the byte at the counter begins no
    /// instruction; then nothing has changed. What `drives` and `lights` answer holds from the step's first cycle on.
    #[inline(always)]
    pub fn step(&mut self, line: Lines) -> u8
        ensures cycles { result ≡ cycles_of (next_of (pins_at line self.old.matrix self.old.chip.mcu.p1) self.old.chip) }
        ensures after { self.new ≡ with_chip
            (after (next_of (pins_at line self.old.matrix self.old.chip.mcu.p1) self.old.chip) self.old.chip) self.old }
        ensures few { result < 3 }
    {
        let given = pins(&self.matrix, port_1(&self.chip), line);
        self.chip.step(given)
    }

    /// What the keyboard drives on the two wires, by the latch of port 2: it pulls a wire, or lets it go.
    #[inline(always)]
    pub fn drives(&self) -> Lines
        ensures driven { result ≡ latch_of self.now.chip.mcu.p2 }
    {
        driven(port_2(&self.chip))
    }

    /// The lights: Scroll as bit 0, Num as bit 1, Caps as bit 2.
    pub fn lights(&self) -> u8
        ensures lights { result ≡ lights_of self.now.chip.mcu.p2 }
    {
        joint_run::lights(port_2(&self.chip))
    }
}
