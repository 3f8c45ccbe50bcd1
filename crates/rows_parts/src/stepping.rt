//! What no call of the program shows: a step that is stuck changes nothing, sums of all decimal numbers, and lines of steps
//! without number.

ghost use Rattle.std.specs.Prelude.{◌<◌};

use mcs48_core::{ALL_HIGH, Stuck, reset, state_line, state_text};
use mcs48_isa::Image;
use std::alloc::Global;
use std::test::Fail;

/// The bytes that begin no instruction.
const EMPTY: [u8; 26] = [
    0x01, 0x06, 0x0b, 0x22, 0x33, 0x38, 0x3b, 0x63, 0x66, 0x73, 0x82, 0x87, 0x8b, 0x9b, 0xa2, 0xa6,
    0xb7, 0xc0, 0xc1, 0xc2, 0xc3, 0xd6, 0xe0, 0xe1, 0xe2, 0xf3,
];

/// Whether this is a line of the state after reset, at these counts.
fn is_line(steps: u64, cycles: u64, row: u8, line: &[u8]) -> bool {
    row < 5 && state_line(&reset(), steps, cycles, row).as_slice() == line
}

#[test]
fn lines_without_memory(rt: HostRuntime) {
    assert!(rt;
        is_line(
            0,
            0,
            1,
            b"t 00 pre 00 tf 0 run off ext off tim off rq 0 svc 0\n"
        )
    );
    let last = b"steps 18446744073709551615 cycles 999999999\n";
    assert!(rt; is_line(u64::MAX, 999_999_999, 4, last));
}

/// A program that begins with these bytes; all others are 00.
fn program(start: &[u8; 5]) -> Image {
    let mut bytes = [0; 2048];
    bytes[..5].copy_from_slice(start);
    Image { bytes }
}

/// The step of a program after reset, and whether it changes no line of the state.
fn first_step(alloc: Global, start: &[u8; 5]) -> Result<(Option<Stuck>, bool), Fail> {
    let mut mcu = reset();
    let before = state_text(alloc, &mcu, 0, 0)?;
    let stuck = match mcu.step(&program(start), ALL_HIGH) {
        Ok(_) => None,
        Err(stuck) => Some(stuck),
    };
    let after = state_text(alloc, &mcu, 0, 0)?;
    Ok((stuck, before.as_slice() == after.as_slice()))
}

/// A step is stuck exactly at those bytes, and then leaves everything as it was.
#[test]
fn each_first_byte(rt: HostRuntime) -> Result<(), Fail> {
    for byte in 0..=255 {
        let answer = first_step(rt.alloc(), &[byte, 0, 0, 0, 0])?;
        if EMPTY.contains(&byte) {
            assert!(rt;
                answer == (Some(Stuck { pc: 0, byte }), true),
                "byte {byte:02x}"
            );
        } else {
            assert!(rt; answer.0.is_none(), "byte {byte:02x}");
        }
    }
    Ok(())
}

/// A number as two decimal digits.
fn digits(number: u8) -> u8
    requires { number < 100 }
{
    number / 10 * 16 + number % 10
}

/// A and the carry after MOV A, ADD A and DA A with these numbers.
fn added(first: u8, second: u8) -> Result<(u8, u8), Stuck> {
    let image = program(&[0x23, first, 0x03, second, 0x57]);
    let mut mcu = reset();
    for _ in 0..3 {
        mcu.step(&image, ALL_HIGH)?;
    }
    Ok((mcu.a, mcu.psw / 128))
}

#[test]
fn sums_of_decimal_numbers(rt: HostRuntime) -> Result<(), Fail> {
    for x in 0..100u8 {
        for y in 0..100u8 {
            let sum = (digits((x + y) % 100), (x + y) / 100);
            assert!(rt; added(digits(x), digits(y))? == sum, "{x} and {y}");
        }
    }
    Ok(())
}
