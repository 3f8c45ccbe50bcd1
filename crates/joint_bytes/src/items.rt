//! The bytes of what happened.

ghost use Rattle.std.specs.Prelude.{◌≡◌, ◌≤◌, ◌+◌, ◌*◌, ◌++◌, ◌∷◌, length, slice_index};
ghost use Rattle.std.specs.Int.{w16, to_le_bytes};
ghost use Rattle.arrayvec.specs.ArrayVec.{array_vec_len};
ghost use Rattle.joint_bytes.specs.Kinds.{item_by, kind_of, value_of, what_by, what_kind, what_value};
ghost use Rattle.mcs48_bytes.specs.Numbers.{word_at};
ghost use Rattle.joint_bytes.specs.Lists.{item_bytes, item_in, items_bytes, items_in};

use arrayvec::ArrayVec;
use board_terms::Transfer;
use hex_text::append;
use live_items::{Happened, What};
use mcs48_bytes::{number_at, word_at};
use pc_tables::Item;

/// The keyboard has sent a byte over the wires, as a kind.
const SENT: u8 = 18;

/// The controller has sent the keyboard a byte, as a kind.
const GIVEN: u8 = 19;

/// The kind of an item, as a number.
fn item_kind(item: Item) -> u8
    ensures { result ≡ kind_of item }
{
    match item {
        Item::Port(_) => 0,
        Item::Read(_) => 1,
        Item::Word(_) => 2,
        Item::Beep => 3,
        Item::Overrun => 4,
        Item::Lights(_) => 5,
        Item::Taken(Some(_)) => 6,
        Item::Taken(None) => 7,
        Item::Status(_) => 8,
        Item::Output(_) => 9,
        Item::Pulse(_) => 10,
        Item::Broke => 11,
        Item::Pause => 12,
        Item::Resume => 13,
        Item::Print => 14,
        Item::Boot => 15,
        Item::SysMake => 16,
        Item::SysBreak => 17,
    }
}

/// The byte or the word of an item, or 0.
fn item_value(item: Item) -> u16
    ensures { result ≡ value_of item }
{
    match item {
        Item::Port(byte) => u16::from(byte),
        Item::Read(byte) => u16::from(byte),
        Item::Word(word) => word,
        Item::Beep => 0,
        Item::Overrun => 0,
        Item::Lights(lights) => u16::from(lights),
        Item::Taken(Some(word)) => word,
        Item::Taken(None) => 0,
        Item::Status(byte) => u16::from(byte),
        Item::Output(byte) => u16::from(byte),
        Item::Pulse(lines) => u16::from(lines),
        Item::Broke => 0,
        Item::Pause => 0,
        Item::Resume => 0,
        Item::Print => 0,
        Item::Boot => 0,
        Item::SysMake => 0,
        Item::SysBreak => 0,
    }
}

/// The item of a kind, with this byte, or with this word if its kind has one.
fn item_by(kind: u8, byte: u8, word: u16) -> Item
    ensures { result ≡ item_by kind byte word }
{
    match kind {
        0 => Item::Port(byte),
        1 => Item::Read(byte),
        2 => Item::Word(word),
        3 => Item::Beep,
        4 => Item::Overrun,
        5 => Item::Lights(byte),
        6 => Item::Taken(Some(word)),
        7 => Item::Taken(None),
        8 => Item::Status(byte),
        9 => Item::Output(byte),
        10 => Item::Pulse(byte),
        11 => Item::Broke,
        12 => Item::Pause,
        13 => Item::Resume,
        14 => Item::Print,
        15 => Item::Boot,
        16 => Item::SysMake,
        _ => Item::SysBreak,
    }
}

/// The kind of what happened, as a number: that of the log's item, or a byte that passed over the wires.
pub fn what_kind(what: What) -> u8
    ensures { result ≡ what_kind what }
{
    match what {
        What::Said(item) => item_kind(item),
        What::Passed(byte) => { if byte.from_host { GIVEN } else { SENT } }
    }
}

/// Its byte or word, or 0.
pub fn what_value(what: What) -> u16
    ensures { result ≡ what_value what }
{
    match what {
        What::Said(item) => item_value(item),
        What::Passed(byte) => u16::from(byte.byte),
    }
}

/// What happened, by its kind.
fn what_by(kind: u8, byte: u8, word: u16) -> What
    ensures { result ≡ what_by kind byte word }
{
    match kind {
        SENT => What::Passed(Transfer {
            from_host: false,
            byte,
        }),
        GIVEN => What::Passed(Transfer {
            from_host: true,
            byte,
        }),
        _ => What::Said(item_by(kind, byte, word)),
    }
}

/// What happened is read from its kind and its value's two bytes.
fn kind_and_value(what: What) -> [u8; 3]
    ensures bytes { result ≡ what_kind what ∷ to_le_bytes w16 (what_value what) }
    ensures read { what_by (slice_index result 0) (slice_index result 1) (word_at 1 result) ≡ what }
{
    let [low, high] = what_value(what).to_le_bytes();
    [what_kind(what), low, high]
}

/// The bytes of what happened. They are read as this.
fn item_bytes(it: &Happened) -> [u8; 11]
    ensures bytes { result ≡ item_bytes it.now }
    ensures read { item_in result ≡ it.now }
{
    let [a, b, c, d, e, f, g, h] = it.cycle.to_le_bytes();
    let [kind, low, high] = kind_and_value(it.what);
    [a, b, c, d, e, f, g, h, kind, low, high]
}

/// What these bytes mean.
fn item_in(bytes: &[u8]) -> Happened
    requires { 11 ≤ length bytes.now }
    ensures { result ≡ item_in bytes.now }
{
    Happened {
        cycle: number_at(bytes, 0),
        what: what_by(bytes[8], bytes[9], word_at(bytes, 9)),
    }
}

/// Appends the places for items. What is appended is read as these items.
pub fn push_items(bytes: &mut ArrayVec<u8, 3077>, items: &[Happened], places: usize)
    requires room { array_vec_len bytes.old + 11 * places ≤ 3077 }
    requires few { length items.now ≤ places }
    ensures bytes { bytes.new.items ≡ bytes.old.items ++ items_bytes places items.now }
    ensures count { array_vec_len bytes.new ≡ array_vec_len bytes.old + 11 * places }
    ensures read { items_in (length items.now) (items_bytes places items.now) ≡ items.now }
{
    if places == 0 {
        return;
    }
    match items {
        [] => {
            append(bytes, &[0; 11]);
            push_items(bytes, items, places - 1);
        }
        [it, later @ ..] => {
            append(bytes, &item_bytes(it));
            push_items(bytes, later, places - 1);
        }
    }
}

/// Appends the first of these items to a list that has room for them.
pub fn take_items(items: &mut ArrayVec<Happened, 64>, bytes: &[u8], count: usize)
    requires room { array_vec_len items.old + count ≤ 64 }
    requires bytes { 11 * count ≤ length bytes.now }
    ensures items { items.new.items ≡ items.old.items ++ items_in count bytes.now }
{
    if count == 0 {
        return;
    }
    items.push(item_in(bytes));
    take_items(items, &bytes[11..], count - 1);
}
