//! Texts by hand, with their parts.

use std::test::Fail;
use text_lines::{decimal, hexadecimal, is_blank_line, next_field, next_line, split_once};

/// Whether a text has these lines, and no more.
fn has_lines(mut text: &[u8], lines: &[&[u8]]) -> bool {
    for line in lines {
        match next_line(text) {
            Some((next, after)) if next == *line => text = after,
            _ => return false,
        }
    }
    next_line(text).is_none()
}

/// Whether a line has these fields, and no more.
fn has_fields(mut line: &[u8], fields: &[&[u8]]) -> bool {
    for field in fields {
        match next_field(line) {
            Some((next, after)) if next == *field => line = after,
            _ => return false,
        }
    }
    next_field(line).is_none()
}

#[test]
fn lines_end_with_lf_or_with_cr_and_lf(rt: HostRuntime) {
    let lines: [&[u8]; 4] = [b"first", b"second", b"", b"\rlast\r"];
    assert!(rt; has_lines(b"first\nsecond\r\n\n\rlast\r", &lines));
    assert!(rt; has_lines(b"", &[]));
}

#[test]
fn fields_are_parted_by_spaces_and_tabs(rt: HostRuntime) {
    let fields: [&[u8]; 3] = [b"400ms", b"press", b"a\r"];
    assert!(rt; has_fields(b" \t400ms press\t a\r \t", &fields));
    assert!(rt; has_fields(b" \t ", &[]));
    assert!(rt; is_blank_line(b" \t "));
    assert!(rt; !is_blank_line(b" \r"));
}

#[test]
fn single_spaces_part_empty_pieces_too(rt: HostRuntime) {
    let Some((first, rest)) = split_once(b' ', b"step  5") else {
        panic!(rt; "no space")
    };
    assert!(rt; first == b"step".as_slice() && rest == b" 5".as_slice());
    assert!(rt; split_once(b' ', b"step").is_none());
}

/// A number's digits, in decimal at most so many and in hexadecimal just so many, and the number, if it is one.
type Digits = (usize, &'static [u8], Option<u32>);

static DECIMAL: [Digits; 6] = [
    (9, b"999999999", Some(999_999_999)),
    (9, b"0000000000", None),
    (2, b"07", Some(7)),
    (9, b"", None),
    (9, b"1a", None),
    (9, b"-1", None),
];

static HEXADECIMAL: [Digits; 5] = [
    (2, b"eD", Some(0xed)),
    (3, b"7FF", Some(0x7ff)),
    (8, b"FFFFFFFF", Some(0xffff_ffff)),
    (2, b"0ED", None),
    (2, b"G0", None),
];

#[test]
fn numbers_have_a_bounded_number_of_digits(rt: HostRuntime) -> Result<(), Fail> {
    for (most, digits, number) in &DECIMAL {
        assert!(rt; *most < 10 && decimal(*most, digits) == *number);
    }
    for (count, digits, number) in &HEXADECIMAL {
        assert!(rt; *count < 9 && hexadecimal(*count, digits) == *number);
    }
    Ok(())
}
