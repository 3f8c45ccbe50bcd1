//! Help for two BIOSes, which C holds as a struct of its own: no handle, no memory, no pointer. What the guest sees
//! then isn't the machine's.

ghost use Rattle.std.specs.Prelude.{◌≡◌};
ghost use Rattle.kbd48_c.specs.Helping.{begins_self_test, help_after_read, help_after_write, written_for};

/// The controller's commands that await a parameter.
const WRITE_COMMAND_BYTE: u8 = 0x60;

const WRITE_OUTPUT_PORT: u8 = 0xd1;

/// What newer keyboards take as the choice of a scan set; the byte after it is the set's number.
const CHOOSE_SCAN_SET: u8 = 0xf0;

/// A command that the keyboard acknowledges, and that does nothing else.
const NO_OPERATION: u8 = 0xef;

/// The command that resets the keyboard, and what the keyboard acknowledges it by.
const RESET: u8 = 0xff;

const ACKNOWLEDGED: u8 = 0xfa;

/// Which BIOSes get help, and what of the guest's bytes is remembered for it. All bytes 0 are no help.
#[repr(C)]
#[derive(Drop)]
pub struct Help {
    /// The byte after F0 is replaced by EF.
    pub seabios: bool,
    /// The self-test after FF takes the guest no time.
    pub bochs: bool,
    /// The controller awaits a parameter.
    pub parameter: bool,
    /// The last byte that the keyboard was given, or 00.
    pub last: u8,
}

/// The byte to write in place of this one, which the guest writes to port 60h or 64h.
#[unsafe(no_mangle)]
pub extern "C" fn kbd48_help_write(help: &mut Help, port: u8, byte: u8) -> u8
    ensures byte { result ≡ written_for port byte help.old }
    ensures after { help.new ≡ help_after_write port byte help.old }
{
    if port == 0x64 {
        help.parameter = byte == WRITE_COMMAND_BYTE || byte == WRITE_OUTPUT_PORT;
        return byte;
    }
    if port != 0x60 {
        return byte;
    }
    if help.parameter {
        help.parameter = false;
        return byte;
    }
    let given = if help.seabios && help.last == CHOOSE_SCAN_SET {
        NO_OPERATION
    } else {
        byte
    };
    help.last = given;
    given
}

/// Whether the guest has just read the answer to its reset of the keyboard, so the keyboard is to run on until the line rises.
#[unsafe(no_mangle)]
pub extern "C" fn kbd48_help_read(help: &mut Help, byte: u8) -> bool
    ensures begins { result ≡ begins_self_test byte help.old }
    ensures after { help.new ≡ help_after_read byte help.old }
{
    if !(help.bochs && help.last == RESET && byte == ACKNOWLEDGED) {
        return false;
    }
    help.last = 0;
    true
}
