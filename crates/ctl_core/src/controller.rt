//! The controller's buffers, its command byte and what it does with a byte.

ghost use Rattle.std.specs.Prelude.{◌≡◌, ◌↔◌, ◌<◌, ◌≤◌, false, if◌then◌else◌, is_some, IsErr, IsSome, IfErr, OnErr, OnOk, option_map};
ghost use Rattle.ctl_core.specs.Commands.{after_taken, commanded, passed, taken};
ghost use Rattle.ctl_core.specs.Controller.{at_start, emptied, interrupt_enabled, is_disabled, is_idle, put_out};
ghost use Rattle.ctl_core.specs.Controller.{asks_again, status_of, written};
ghost use Rattle.ctl_core.specs.Parts.{controller_of, parts_of};
ghost use Rattle.ctl_core.specs.Translation.{after_received, after_wrong, received_as};

use crate::command::{Command, Parameter, decode_command};
use crate::flags::{CommandByte, Status};
use crate::port::{Input, InputFull, Port};
use crate::translation::{Translated, translate_marked};
use bitflags::Flags;
use std::marker::Model;

/// What taking a byte of the input buffer did beyond the controller itself: nothing, a byte for the keyboard, a byte
/// for the output port, or a pulse of its lines, of which each 0 bit of the number is pulsed.
#[derive(Clone, Copy, Debug, PartialEq, Eq, Drop)]
pub enum Did {
    Nothing,
    ToKeyboard(u8),
    Output(u8),
    Pulse(u8),
}

/// What a byte from the keyboard came to: it was put out; it began a break; it came wrong, and is asked for again; or
/// it came wrong once too often, and the controller gave up.
#[derive(Clone, Copy, Debug, PartialEq, Eq, Drop)]
pub enum Received {
    Put,
    Marked,
    Bad,
    GaveUp,
}

/// How often in a row a byte that came wrong is asked for again. Source: our own.
const MOST_RESENDS: u8 = 3;

/// What is put out if the controller gives up.
const GIVEN_UP: u8 = 0xff;

/// The controller without its wires.
#[derive(Drop)]
pub struct Controller {
    input: Option<Input>,
    output_full: bool,
    output: u8,
    command_byte: CommandByte,
    awaited: Option<Parameter>,
    output_port: u8,
    break_mark: bool,
    parity: bool,
    last_to_64: bool,
    resends: u8,
}

impl Model for Controller {
    ghost use Rattle.ctl_core.specs.Controller.{ControllerState};

    ghost Value = { ControllerState };

    ghost view = { λ s. record {
      input = s.input;
      output_full = s.output_full;
      output = s.output;
      command_byte = s.command_byte.0;
      awaited = s.awaited;
      output_port = s.output_port;
      break_mark = s.break_mark;
      parity = s.parity;
      last_to_64 = s.last_to_64;
      resends = s.resends;
    } };
}

/// The controller's parts, each by itself: the byte in the input buffer with its port; whether the output buffer is full,
/// and its last byte; the command byte; the parameter that a command awaits; the last byte for the output port; whether
/// a break was begun; the status's parity bit; whether the last write was to port 64h; and how often in a row the
/// keyboard's byte came wrong and was asked for again.
#[derive(Clone, Copy, Debug, PartialEq, Eq, Drop)]
pub struct Buffers {
    pub input: Option<Input>,
    pub output_full: bool,
    pub output: u8,
    pub command_byte: u8,
    pub awaited: Option<Parameter>,
    pub output_port: u8,
    pub break_mark: bool,
    pub parity: bool,
    pub last_to_64: bool,
    pub resends: u8,
}

impl Controller {
    /// The controller of these parts.
    pub fn of_parts(parts: &Buffers) -> Controller
        ensures parts { result ≡ controller_of parts.now }
    {
        Controller {
            input: parts.input,
            output_full: parts.output_full,
            output: parts.output,
            command_byte: CommandByte::from_bits_retain(parts.command_byte),
            awaited: parts.awaited,
            output_port: parts.output_port,
            break_mark: parts.break_mark,
            parity: parts.parity,
            last_to_64: parts.last_to_64,
            resends: parts.resends,
        }
    }

    /// The parts.
    pub fn parts(&self) -> Buffers
        ensures parts { result ≡ parts_of self.now }
    {
        Buffers {
            input: self.input,
            output_full: self.output_full,
            output: self.output,
            command_byte: self.command_byte.bits(),
            awaited: self.awaited,
            output_port: self.output_port,
            break_mark: self.break_mark,
            parity: self.parity,
            last_to_64: self.last_to_64,
            resends: self.resends,
        }
    }

    /// The controller at its start: both buffers empty, the command byte 45.
    pub fn new() -> Controller
        ensures start { result ≡ at_start }
    {
        Controller {
            input: None,
            output_full: false,
            output: 0,
            command_byte: CommandByte::from_bits_retain(0x45),
            awaited: None,
            output_port: 0xcf,
            break_mark: false,
            parity: false,
            last_to_64: false,
            resends: 0,
        }
    }

    /// A controller of its own in the same state.
    pub fn copied(&self) -> Controller
        ensures same { result ≡ self.now }
    {
        Controller {
            input: self.input,
            output_full: self.output_full,
            output: self.output,
            command_byte: self.command_byte,
            awaited: self.awaited,
            output_port: self.output_port,
            break_mark: self.break_mark,
            parity: self.parity,
            last_to_64: self.last_to_64,
            resends: self.resends,
        }
    }

    /// The host writes a port. It fills the input buffer; if that is full already, nothing changes.
    pub fn host_write(&mut self, port: Port, byte: u8) -> Result<(), InputFull>
        ensures full { IsErr result ↔ IsSome self.old.input }
        ensures status { IfErr result (λ fault. fault.status ≡ status_of self.old) }
        ensures unchanged { OnErr result (self.new ≡ self.old) }
        ensures written { OnOk result (self.new ≡ written port byte self.old) }
    {
        if self.input.is_some() {
            return Err(InputFull {
                status: self.status(),
            });
        }
        self.input = Some(Input { port, byte });
        self.last_to_64 = port == Port::P64;
        Ok(())
    }

    /// The host reads port 60h: the last byte put out, 00 at first. It empties the output buffer.
    pub fn host_read60(&mut self) -> u8
        ensures byte { result ≡ self.old.output }
        ensures emptied { self.new ≡ emptied self.old }
    {
        self.output_full = false;
        self.output
    }

    /// The host reads port 64h: the status.
    pub fn status(&self) -> u8
        ensures status { result ≡ status_of self.now }
    {
        let mut status = Status::UNLOCKED;
        status.set(Status::OUTPUT_FULL, self.output_full);
        status.set(Status::INPUT_FULL, self.input.is_some());
        status.set(
            Status::SYSTEM,
            self.command_byte.contains(CommandByte::SYSTEM),
        );
        status.set(Status::COMMAND, self.last_to_64);
        status.set(Status::PARITY, self.parity);
        status.bits()
    }

    /// Whether the output buffer is full.
    pub fn output_full(&self) -> bool
        ensures full { result ≡ self.now.output_full }
    {
        self.output_full
    }

    /// Whether the input buffer is full.
    pub fn input_full(&self) -> bool
        ensures full { result ≡ is_some self.now.input }
    {
        self.input.is_some()
    }

    /// Whether the command byte lets the interrupt of a full output buffer through.
    pub fn interrupt_enabled(&self) -> bool
        ensures enabled { result ≡ interrupt_enabled self.now }
    {
        self.command_byte.contains(CommandByte::INTERRUPT)
    }

    /// Whether the command byte disables the keyboard.
    pub fn is_disabled(&self) -> bool
        ensures disabled { result ≡ is_disabled self.now }
    {
        self.command_byte.contains(CommandByte::DISABLE)
    }

    /// Whether both buffers are empty and the keyboard isn't disabled.
    pub fn is_idle(&self) -> bool
        ensures idle { result ≡ is_idle self.now }
    {
        self.input.is_none() && !self.output_full && !self.is_disabled()
    }

    /// The command byte.
    pub fn command_byte(&self) -> u8
        ensures byte { result ≡ self.now.command_byte }
    {
        self.command_byte.bits()
    }

    /// The last byte that was put out, 00 at first, whether the output buffer is full or not.
    pub fn output(&self) -> u8
        ensures byte { result ≡ self.now.output }
    {
        self.output
    }

    /// The last byte that was written to the output port, CF at first.
    pub fn output_port(&self) -> u8
        ensures byte { result ≡ self.now.output_port }
    {
        self.output_port
    }

    /// How often in a row the keyboard's byte came wrong and was asked for again.
    pub fn resends(&self) -> u8
        ensures count { result ≡ self.now.resends }
    {
        self.resends
    }

    /// Takes the byte of the input buffer and does what it says, while the output buffer is empty. `None` exactly if
    /// the input buffer is empty.
    pub fn take_input(&mut self) -> Option<Did>
        requires output_empty { self.old.output_full ≡ false }
        ensures some { IsSome result ↔ IsSome self.old.input }
        ensures reported { result ≡ option_map (λ t. t.did) (taken self.old) }
        ensures after { self.new ≡ after_taken self.old }
    {
        let Input { port, byte } = self.input.take()?;
        let awaited = self.awaited.take();
        Some(match port {
            Port::P60 => self.pass(awaited, byte),
            Port::P64 => self.obey(decode_command(byte)),
        })
    }

    /// A byte of port 60h, with the parameter that was awaited.
    fn pass(&mut self, awaited: Option<Parameter>, byte: u8) -> Did
        ensures reported { result ≡ (passed awaited byte self.old).did }
        ensures after { self.new ≡ (passed awaited byte self.old).state }
    {
        match awaited {
            Some(Parameter::CommandByte) => {
                self.command_byte = CommandByte::from_bits_retain(byte);
                Did::Nothing
            }
            Some(Parameter::OutputPort) => {
                self.output_port = byte;
                Did::Output(byte)
            }
            None => {
                self.command_byte.remove(CommandByte::DISABLE);
                Did::ToKeyboard(byte)
            }
        }
    }

    /// A command, once a wait for a parameter has ended.
    fn obey(&mut self, command: Command) -> Did
        ensures reported { result ≡ (commanded command self.old).did }
        ensures after { self.new ≡ (commanded command self.old).state }
    {
        match command {
            Command::ReadCommandByte => {
                let byte = self.command_byte.bits();
                self.put_out(byte);
            }
            Command::WriteCommandByte => self.awaited = Some(Parameter::CommandByte),
            Command::SelfTest => self.put_out(0x55),
            Command::InterfaceTest => self.put_out(0x00),
            Command::Disable => self.command_byte.insert(CommandByte::DISABLE),
            Command::Enable => self.command_byte.remove(CommandByte::DISABLE),
            Command::ReadInputPort => self.put_out(0xb0),
            Command::ReadOutputPort => {
                let byte = self.output_port;
                self.put_out(byte);
            }
            Command::WriteOutputPort => self.awaited = Some(Parameter::OutputPort),
            Command::PulseOutput(lines) => return Did::Pulse(lines),
            Command::Unlisted => {}
        }
        Did::Nothing
    }

    /// A byte from the keyboard, while the output buffer is empty, and whether it came right. A right one is put out,
    /// by the translation that the command byte asks for, or begins a break, and no byte is asked for again any more.
    /// One that came wrong is `Bad`, and is to be asked for again, three times in a row at most, which are counted;
    /// then the controller gives up and puts out FF with the parity bit set.
    pub fn receive(&mut self, byte: u8, good: bool) -> Received
        requires output_empty { self.old.output_full ≡ false }
        ensures bad { (result ≡ Received.Bad) ↔ ((good ≡ false) × (self.old.resends < 3)) }
        ensures gave_up { (result ≡ Received.GaveUp) ↔ ((good ≡ false) × (3 ≤ self.old.resends)) }
        ensures answer { result ≡ received_as self.old byte good }
        ensures after { self.new ≡ after_received self.old byte good }
    {
        if !good {
            return self.receive_wrong();
        }
        let translating = self.command_byte.contains(CommandByte::TRANSLATE);
        let Translated { byte, mark } = translate_marked(translating, self.break_mark, byte);
        self.break_mark = mark;
        self.resends = 0;
        match byte {
            Some(byte) => {
                self.put_out(byte);
                Received::Put
            }
            None => Received::Marked,
        }
    }

    /// A byte from the keyboard came wrong, while the output buffer is empty: as `receive` says, whatever the byte.
    pub fn receive_wrong(&mut self) -> Received
        requires output_empty { self.old.output_full ≡ false }
        ensures answer { result ≡ (if asks_again self.old then Received.Bad else Received.GaveUp) }
        ensures after { self.new ≡ after_wrong self.old }
    {
        if self.resends < MOST_RESENDS {
            self.resends += 1;
            return Received::Bad;
        }
        self.put_out(GIVEN_UP);
        self.parity = true;
        self.resends = 0;
        Received::GaveUp
    }

    /// Puts a byte into the output buffer.
    fn put_out(&mut self, byte: u8)
        ensures { self.new ≡ put_out byte self.old }
    {
        self.output_full = true;
        self.output = byte;
        self.parity = false;
    }
}
