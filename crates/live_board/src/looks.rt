//! What is seen of a keyboard between two steps. No step is made, and nothing changes.

ghost use Rattle.std.specs.Prelude.{◌≡◌, ◌≤◌, ◌<◌, length, slice_index};
ghost use Rattle.board_terms.specs.Matrix.{rows_of};
ghost use Rattle.joint_run.specs.Cycle.{outside_wires};
ghost use Rattle.joint_run.specs.Joint.{latch_of};
ghost use Rattle.ctl_wire.specs.Wires.{wires};
ghost use Rattle.live_board.specs.Answers.{line_in, raises};
ghost use Rattle.live_board.specs.Calls.{place_of};
ghost use Rattle.live_board.specs.Looks.{registers_of};
ghost use Rattle.live_board.specs.Pasts.{Past, state_of};
ghost use Rattle.live_board.specs.States.{HasPast};

use crate::keyboard::Keyboard;
use board_terms::Lines;
use mcs48_core::{Mcu, Stuck};

/// The controller's registers, in an order that C shares.
#[repr(C)]
#[derive(Clone, Copy, Debug, PartialEq, Eq, Drop)]
pub struct Registers {
    /// What port 64h would read.
    pub status: u8,
    /// What port 60h would read: the last byte that was put out, 00 at first.
    pub output: u8,
    /// The command byte.
    pub command_byte: u8,
    /// The last byte that was written to the output port, CF at first. Bit 1 is the gate of A20.
    pub output_port: u8,
}

impl Keyboard {
    /// Whether the interrupt line is up: the controller's output buffer is full, and its interrupt is enabled.
    pub fn interrupt(&self) -> bool
        ensures line { result ≡ raises self.now.joint.outside.desk.port.core }
        ensures state { (p : Past) → HasPast p self.now → result ≡ line_in (state_of p) }
    {
        self.parts.interrupt()
    }

    /// The controller's registers. The byte of the output buffer isn't taken.
    pub fn registers(&self) -> Registers
        ensures registers { result ≡ registers_of self.now.joint.outside.desk.port.core }
        ensures state { (p : Past) → (s : HasPast p self.now) → result ≡ registers_of s.world.board.pc.side.port.core }
    {
        let controller = self.parts.joint.controller();
        Registers {
            status: controller.status(),
            output: controller.output(),
            command_byte: controller.command_byte(),
            output_port: controller.output_port(),
        }
    }

    /// The keyboard's processor: its registers, flags and data memory.
    pub fn processor(&self) -> &Mcu
        ensures processor { result.now ≡ self.now.joint.mcu }
        ensures state { (p : Past) → (s : HasPast p self.now) → result.now ≡ s.world.cpu }
    {
        self.parts.joint.mcu()
    }

    /// Where the processor is: its program counter, and the byte of the program there.
    pub fn place(&self) -> Stuck
        ensures place { result ≡ place_of self.now.joint }
    {
        let pc = self.parts.joint.mcu().pc;
        let byte = self.parts.joint.image().bytes[(pc % 2048) as usize];
        Stuck { pc, byte }
    }

    /// The byte of the program at a place, 0 to 2,047.
    pub fn program_byte(&self, place: u16) -> u8
        requires place { place < 2048 }
        ensures byte { result ≡ slice_index self.now.joint.image.bytes place }
        ensures state { (p : Past) → HasPast p self.now → result ≡ slice_index p.bytes place }
    {
        self.parts.joint.image().bytes[place as usize]
    }

    /// The keys of a column of the matrix, as the processor reads them: bit k is row k, 0 for down. Columns from 12 on
    /// have no keys, and read FF.
    pub fn rows(&self, column: u8) -> u8
        ensures rows { result ≡ rows_of self.now.joint.matrix column }
    {
        self.parts.joint.matrix().rows(column)
    }

    /// How many edges of keys wait for a step, at most four.
    pub fn edges_waiting(&self) -> usize
        ensures count { result ≡ length self.now.due.edges.items }
        ensures range { result ≤ 4 }
    {
        self.parts.due.edges.as_slice().len()
    }

    /// How many words wait in the buffer of INT 09h, at most 15.
    pub fn words_waiting(&self) -> usize
        ensures count { result ≡ length self.now.joint.outside.desk.bios.words }
        ensures state { (p : Past) → (s : HasPast p self.now) → result ≡ length s.world.board.pc.side.bios.words }
        ensures range { result ≤ 15 }
    {
        self.parts.joint.bios().count()
    }

    /// The lights: Scroll as bit 0, Num as bit 1, Caps as bit 2.
    pub fn lights(&self) -> u8
        ensures lights { result ≡ self.now.joint.outside.shown }
        ensures state { (p : Past) → (s : HasPast p self.now) → result ≡ s.world.board.shown }
    {
        self.parts.joint.lights()
    }

    /// The two wires after the last cycle.
    pub fn wires(&self) -> Lines
        ensures wires { result ≡ outside_wires self.now.joint.mcu.p2 self.now.joint.outside }
        ensures state { (p : Past) → (s : HasPast p self.now)
            → result ≡ wires (latch_of s.world.cpu.p2) s.world.board.pc }
    {
        self.parts.joint.lines()
    }

    /// How many items were lost after those that are kept, and weren't reported yet.
    pub fn lost(&self) -> u64
        ensures lost { result ≡ self.now.heard.lost }
    {
        self.parts.heard.lost
    }

    /// How many times the interrupt line rose in the last run, which may be of no step, or in the last call of the host's that
    /// wasn't refused.
    pub fn rises(&self) -> u64
        ensures rises { result ≡ self.now.rises }
    {
        self.parts.rises
    }

    /// How many cycles of 2.5 microseconds have passed since power-on; stamp 0 is cycle 4,096.
    pub fn cycle(&self) -> u64
        ensures cycle { result ≡ self.now.joint.cycle }
        ensures state { (p : Past) → (s : HasPast p self.now) → result ≡ s.world.cycle }
    {
        self.parts.joint.cycle()
    }
}
