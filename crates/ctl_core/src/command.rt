//! The commands of port 64h.

ghost use Rattle.std.specs.Prelude.{◌≡◌};
ghost use Rattle.ctl_core.specs.Commands.{command_of};

/// What the next byte of port 60h is, if a command awaits one: the command byte, or the output port's.
#[derive(Clone, Copy, Debug, PartialEq, Eq, Drop)]
pub enum Parameter {
    CommandByte,
    OutputPort,
}

/// A command of port 64h. One that pulses lines of the output port has their number; a 0 bit is pulsed.
#[derive(Clone, Copy, Debug, PartialEq, Eq, Drop)]
pub enum Command {
    ReadCommandByte,
    WriteCommandByte,
    SelfTest,
    InterfaceTest,
    Disable,
    Enable,
    ReadInputPort,
    ReadOutputPort,
    WriteOutputPort,
    PulseOutput(u8),
    Unlisted,
}

/// The command that a byte is.
pub fn decode_command(byte: u8) -> Command
    ensures command { result ≡ command_of byte }
{
    match byte {
        0x20 => Command::ReadCommandByte,
        0x60 => Command::WriteCommandByte,
        0xaa => Command::SelfTest,
        0xab => Command::InterfaceTest,
        0xad => Command::Disable,
        0xae => Command::Enable,
        0xc0 => Command::ReadInputPort,
        0xd0 => Command::ReadOutputPort,
        0xd1 => Command::WriteOutputPort,
        0xf0..=0xff => Command::PulseOutput(byte & 0x0f),
        _ => Command::Unlisted,
    }
}
