//! Names and lines that no call of the program shows.

use pc_tables::{Item, Key, item_line, key_named, letter_on, name_of, word_row};

/// Whether this is the key's name, and the key the one with that name.
fn is_name(number: u8, name: &str) -> bool {
    match (Key::numbered(number), key_named(name)) {
        (Some(key), Some(named)) => name_of(key) == name && named.number() == number,
        (None, _) | (_, None) => false,
    }
}

/// Whether INT 09h has no words and no letter for a code.
fn says_nothing(scan: u8) -> bool {
    word_row(scan).is_none() && letter_on(scan).is_none()
}

#[test]
fn keys_end_with_the_84th(rt: HostRuntime) {
    assert!(rt; is_name(69, "sysreq"));
    assert!(rt; is_name(83, "prtsc"));
    assert!(rt; Key::numbered(84).is_none());
    assert!(rt; says_nothing(0x54));
    assert!(rt; letter_on(0x02).is_none());
}

/// Whether this is the line of an item.
fn is_line(tick: u32, item: Item, line: &[u8]) -> bool {
    item_line(tick, item).as_slice() == line
}

#[test]
fn the_last_tick_has_ten_digits(rt: HostRuntime) {
    assert!(rt; is_line(u32::MAX, Item::SysBreak, b"4294967295 sysreq break\n"));
}
