//! What a layout says by place and by column, as the kernel reads it.

ghost use Rattle.std.specs.Prelude.{◌≡◌, ◌<◌, ◌+◌, ◌*◌};
ghost use Rattle.fw_compile.specs.Image.{code_byte, codes_of, fn_code_byte, fn_codes_of, make_only_byte, make_only_of};
ghost use Rattle.fw_compile.specs.Image.{fn_byte, debounce_byte};
ghost use Rattle.layout_reader.specs.Layouts.{is_make_only};

use board_terms::Place;
use layout_reader::Layout;

/// The code of the place with this number, 00 if it has none.
fn code_of(layout: &Layout, number: u8) -> u8
    requires { number < 96 }
    ensures { result ≡ code_byte layout.now number }
{
    let place = Place::numbered(number).unwrap();
    layout.code_at(place).unwrap_or(0)
}

/// The codes of the 96 places, in their order.
pub(crate) fn codes_of(layout: &Layout) -> [u8; 96]
    ensures { result ≡ codes_of layout.now }
{
    let mut codes = [0; 96];
    for number in 0..96 {
        codes[usize::from(number)] = code_of(layout, number);
    }
    codes
}

/// The code under Fn of the place with this number, 00 if it has none.
fn fn_code_of(layout: &Layout, number: u8) -> u8
    requires { number < 96 }
    ensures { result ≡ fn_code_byte layout.now number }
{
    let place = Place::numbered(number).unwrap();
    layout.fn_code_at(place).unwrap_or(0)
}

/// The codes of the 96 places under Fn, in their order.
pub(crate) fn fn_codes_of(layout: &Layout) -> [u8; 96]
    ensures { result ≡ fn_codes_of layout.now }
{
    let mut codes = [0; 96];
    for number in 0..96 {
        codes[usize::from(number)] = fn_code_of(layout, number);
    }
    codes
}

/// Whether the key in this column and row sends no break.
fn sends_no_break(layout: &Layout, column: u8, row: u8) -> bool
    requires column { column < 12 }
    requires row { row < 8 }
    ensures { result ≡ is_make_only (8 * column + row) layout.now }
{
    layout.make_only(Place::at(column, row).unwrap())
}

/// The byte of a column: bit r is set exactly if the key at row r sends no break.
fn make_only_byte(layout: &Layout, column: u8) -> u8
    requires { column < 12 }
    ensures { result ≡ make_only_byte layout.now column }
{
    let mut byte = 0;
    for row in 0..8 {
        if sends_no_break(layout, column, row) {
            byte += 1 << row;
        }
    }
    byte
}

/// The bytes of the twelve columns, in their order.
pub(crate) fn make_only_of(layout: &Layout) -> [u8; 12]
    ensures { result ≡ make_only_of layout.now }
{
    let mut bytes = [0; 12];
    for column in 0..12 {
        bytes[usize::from(column)] = make_only_byte(layout, column);
    }
    bytes
}

/// The place of the Fn key, FF if there is none.
pub(crate) fn fn_byte(layout: &Layout) -> u8
    ensures { result ≡ fn_byte layout.now }
{
    match layout.fn_place() {
        Some(place) => place.number(),
        None => 0xff,
    }
}

/// 1 if keys are debounced, else 00.
pub(crate) fn debounce_byte(layout: &Layout) -> u8
    ensures { result ≡ debounce_byte layout.now }
{
    u8::from(layout.debounces())
}
