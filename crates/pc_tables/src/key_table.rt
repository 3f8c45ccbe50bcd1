//! The table of the 84 keys, one row each, in the order of their numbers.
//!
//! Source: PC/AT Technical Reference, 84-key keyboard: the code that the keyboard sends, and the scan code into which
//! the keyboard controller translates it. The names are our own.

ghost use Rattle.std.specs.Prelude.{◌≡◌, ◌<◌};
ghost use Rattle.pc_tables.specs.Keys.{row, row_at};

use std::marker::Model;

/// A key's name, the code that the keyboard sends for it, and its scan code after translation.
#[derive(Drop)]
pub(crate) struct KeyRow {
    pub(crate) name: &'static str,
    pub(crate) code: u8,
    pub(crate) scan: u8,
}

impl Model for KeyRow {
    ghost use Rattle.pc_tables.specs.Keys.{Row, row};

    ghost Value = { Row };

    ghost view = { λ key. row key.name.now key.code key.scan };
}

/// A key with its name, its code and its scan code.
fn row(name: &'static str, code: u8, scan: u8) -> KeyRow
    ensures { result ≡ row name.now code scan }
{
    KeyRow { name, code, scan }
}

/// The row of the key with this number, which is below 84.
#[tactic(auto, unfolding(crate::specs::Keys::keys))]
pub(crate) fn key_row(number: u8) -> KeyRow
    requires { number < 84 }
    ensures { result ≡ row_at number }
{
    match number {
        0 => row("grave", 0x0e, 0x29),
        1 => row("1", 0x16, 0x02),
        2 => row("2", 0x1e, 0x03),
        3 => row("3", 0x26, 0x04),
        4 => row("4", 0x25, 0x05),
        5 => row("5", 0x2e, 0x06),
        6 => row("6", 0x36, 0x07),
        7 => row("7", 0x3d, 0x08),
        8 => row("8", 0x3e, 0x09),
        9 => row("9", 0x46, 0x0a),
        10 => row("0", 0x45, 0x0b),
        11 => row("minus", 0x4e, 0x0c),
        12 => row("equal", 0x55, 0x0d),
        13 => row("backslash", 0x5d, 0x2b),
        14 => row("backspace", 0x66, 0x0e),
        15 => row("tab", 0x0d, 0x0f),
        16 => row("q", 0x15, 0x10),
        17 => row("w", 0x1d, 0x11),
        18 => row("e", 0x24, 0x12),
        19 => row("r", 0x2d, 0x13),
        20 => row("t", 0x2c, 0x14),
        21 => row("y", 0x35, 0x15),
        22 => row("u", 0x3c, 0x16),
        23 => row("i", 0x43, 0x17),
        24 => row("o", 0x44, 0x18),
        25 => row("p", 0x4d, 0x19),
        26 => row("lbracket", 0x54, 0x1a),
        27 => row("rbracket", 0x5b, 0x1b),
        28 => row("ctrl", 0x14, 0x1d),
        29 => row("a", 0x1c, 0x1e),
        30 => row("s", 0x1b, 0x1f),
        31 => row("d", 0x23, 0x20),
        32 => row("f", 0x2b, 0x21),
        33 => row("g", 0x34, 0x22),
        34 => row("h", 0x33, 0x23),
        35 => row("j", 0x3b, 0x24),
        36 => row("k", 0x42, 0x25),
        37 => row("l", 0x4b, 0x26),
        38 => row("semicolon", 0x4c, 0x27),
        39 => row("quote", 0x52, 0x28),
        40 => row("enter", 0x5a, 0x1c),
        41 => row("lshift", 0x12, 0x2a),
        42 => row("z", 0x1a, 0x2c),
        43 => row("x", 0x22, 0x2d),
        44 => row("c", 0x21, 0x2e),
        45 => row("v", 0x2a, 0x2f),
        46 => row("b", 0x32, 0x30),
        47 => row("n", 0x31, 0x31),
        48 => row("m", 0x3a, 0x32),
        49 => row("comma", 0x41, 0x33),
        50 => row("period", 0x49, 0x34),
        51 => row("slash", 0x4a, 0x35),
        52 => row("rshift", 0x59, 0x36),
        53 => row("alt", 0x11, 0x38),
        54 => row("space", 0x29, 0x39),
        55 => row("caps", 0x58, 0x3a),
        56 => row("f1", 0x05, 0x3b),
        57 => row("f2", 0x06, 0x3c),
        58 => row("f3", 0x04, 0x3d),
        59 => row("f4", 0x0c, 0x3e),
        60 => row("f5", 0x03, 0x3f),
        61 => row("f6", 0x0b, 0x40),
        62 => row("f7", 0x83, 0x41),
        63 => row("f8", 0x0a, 0x42),
        64 => row("f9", 0x01, 0x43),
        65 => row("f10", 0x09, 0x44),
        66 => row("esc", 0x76, 0x01),
        67 => row("num", 0x77, 0x45),
        68 => row("scroll", 0x7e, 0x46),
        69 => row("sysreq", 0x84, 0x54),
        70 => row("kp7", 0x6c, 0x47),
        71 => row("kp8", 0x75, 0x48),
        72 => row("kp9", 0x7d, 0x49),
        73 => row("kpminus", 0x7b, 0x4a),
        74 => row("kp4", 0x6b, 0x4b),
        75 => row("kp5", 0x73, 0x4c),
        76 => row("kp6", 0x74, 0x4d),
        77 => row("kpplus", 0x79, 0x4e),
        78 => row("kp1", 0x69, 0x4f),
        79 => row("kp2", 0x72, 0x50),
        80 => row("kp3", 0x7a, 0x51),
        81 => row("kp0", 0x70, 0x52),
        82 => row("kpdot", 0x71, 0x53),
        _ => row("prtsc", 0x7c, 0x37),
    }
}
